// The rounds: over all that grew since the last one, but for what statements of one or two variables read, which were used at once. The first is over every record.
use crate::grown::note_concerned;
use crate::sizes::Sizes;
use crate::written::note_variables;
use indexing::bytes::has;
use indexing::grown::{Grown, Written};
use indexing::index::Index;
use indexing::notes::Notes;
use indexing::view::View;

// Whether something grew that the lines read: the bag, a chain, what is stored, or what a function in the bag, the guest among them, hands back or throws.
fn lines_grew(view: &View, grown: &Grown) -> bool {
    let handing = sets::meet(view.wide, view.held(1), grown.functions);
    has(&grown.variables, 1)
        || grown.names != 0
        || !sets::is_empty(true, grown.labels)
        || !sets::is_empty(view.wide, handing)
}

// What was written since the last round, for this one.
fn take_written(notes: &mut Notes) {
    notes.grown = Grown {
        variables: notes.written.variables,
        names: notes.written.names,
        stored: notes.written.stored,
        ..Grown::nothing()
    };
    notes.written = Written::nothing();
    notes.stored.begin();
}

// Where a round is over, begins the next one: over the variables that hold something new to their readers, whoever brought it, and all that grew since the last.
pub fn begin_round(view: &View, index: &Index, sizes: &mut Sizes, notes: &mut Notes) {
    note_variables(view, notes, sets::full(true));
    take_written(notes);
    sizes.note_grown(view, &mut notes.grown);
    note_concerned(view, &index.roles, &mut notes.grown);
    notes.round.begin();
    // the first round looks at every record, and at nobody's readers
    if notes.round.is_first() {
        notes.due.variables = sets::none(true);
    }
    notes.round.lines = notes.round.is_first() || lines_grew(view, &notes.grown);
}
