// What a use wrote: variables that hold something new to their readers, and properties.
use indexing::bytes::{add, put};
use indexing::notes::Notes;
use indexing::position::Position;
use indexing::record::Record;
use indexing::view::View;
use layout::Kind;
use linking::ends::Ends;
use sets::Set;

// ---- variables

// Variable v, where it holds something that is new to its readers.
fn note_variable(view: &View, notes: &mut Notes, v: u8) {
    if !sets::is_empty(view.wide, notes.seen.news(view, v)) {
        notes.due.put(v);
        put(&mut notes.written.variables, v);
    }
}

// Those of the variables that do.
pub fn note_variables(view: &View, notes: &mut Notes, variables: Set) {
    for v in sets::labels(true, variables) {
        note_variable(view, notes, v.0);
    }
}

// ---- what is stored

// Something was stored under these names in these labels: what, or more.
fn note_stored(notes: &mut Notes, names: u64, owners: Set, stored: Set) {
    notes.written.names = words::join(notes.written.names, names);
    add(&mut notes.written.stored, stored);
    notes.stored.note(owners, names);
}

// What the guest's store, one of the lines, may have stored.
fn note_guest(view: &View, notes: &mut Notes) {
    let bag = view.held(1);
    note_stored(notes, view.names(view.host.guest_key()), bag, bag);
}

// ---- what a use grew

// The variables that a record may have grown, and what it stored.
fn note_record(view: &View, notes: &mut Notes, position: Position, record: Record) {
    match record.kind() {
        // all that these grow is one variable
        Some(Kind::Copy | Kind::Load | Kind::Make | Kind::Catch) => {
            note_variable(view, notes, record.byte(2));
        }
        _ => note_variables(view, notes, Ends::written(view, position).variables),
    }
    let names = view.names_written(record);
    if names != 0 {
        note_stored(notes, names, view.owners(record), view.stored(record));
    }
}

// The record at a position, or the lines, grew something: notes what.
pub fn note_written(view: &View, notes: &mut Notes, position: Position) {
    notes.round.grew = true;
    match position {
        Position::Record(_) => note_record(view, notes, position, view.record(position)),
        Position::Lines => note_guest(view, notes),
    }
}
