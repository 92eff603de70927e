// Whether a record is worth a look: whether something that it reads grew, in the role in which it reads it.
use indexing::bytes::{has, one};
use indexing::grown::Grown;
use indexing::notes::Notes;
use indexing::record::Record;
use indexing::stored::Stored;
use indexing::view::{BY_NEW, BY_PRIM, View};
use layout::Kind;

// The keys of names 1, 2 and 3, by which prims and news look.
const FIRST: u8 = 1;

const SECOND: u8 = 2;

const PROTOTYPE: u8 = 3;

// Whether the variable of byte j grew.
fn grew(grown: &Grown, record: Record, j: usize) -> bool {
    has(&grown.variables, record.byte(j))
}

// Whether something was stored under one of these names, under which a record looks.
fn names_grew(grown: &Grown, names: u64) -> bool {
    words::meet(grown.names, names) != 0
}

// Whether label l, or one that variable v holds, sees something that was stored under the key.
fn sees(view: &View, stored: &mut Stored, v: u8, key: u8, l: u8) -> bool {
    let seers = stored.seers_of(view, key);
    let all = sets::union(view.wide, one(l), view.held(v));
    !sets::is_empty(view.wide, sets::meet(view.wide, seers, all))
}

// Whether a scope lacks something that is thrown.
fn lacks_thrown(view: &View, grown: &Grown, record: Record) -> bool {
    !sets::is_within(view.wide, grown.thrown, view.thrown(record.byte(1)))
}

// Whether a call's variable lacks something that is handed back.
fn lacks_handed(view: &View, grown: &Grown, record: Record) -> bool {
    !sets::is_within(view.wide, grown.handed, view.held(record.byte(2)))
}

// A load: a chain grew, or something was stored where it looks and its variable lacks it.
fn wakes_load(view: &View, grown: &Grown, stored: &mut Stored, record: Record) -> bool {
    if grown.chains && (has(&grown.objects, record.byte(3)) || has(&grown.labels, record.byte(5))) {
        return true;
    }
    names_grew(grown, view.names(record.byte(4)))
        && !sets::is_within(view.wide, grown.stored, view.held(record.byte(2)))
        && sees(view, stored, record.byte(3), record.byte(4), record.byte(5))
}

// A call, or a new: its callee or an input grew, or what its functions hand back or throw.
fn wakes_call(view: &View, grown: &Grown, record: Record) -> bool {
    if record.inputs().iter().any(|v| has(&grown.variables, *v)) {
        return true;
    }
    has(&grown.callees, record.byte(3))
        && (lacks_handed(view, grown, record) || lacks_thrown(view, grown, record))
}

// What wakes a new beside what wakes a call.
fn wakes_new(view: &View, grown: &Grown, stored: &mut Stored, record: Record) -> bool {
    if grew(grown, record, 11) || grown.chains && has(&grown.objects, record.byte(3)) {
        return true;
    }
    names_grew(grown, BY_NEW) && sees(view, stored, record.byte(3), PROTOTYPE, 0)
}

// A prim: its object or a chain grew, or what is thrown, or something was stored where it looks.
fn wakes_prim(view: &View, grown: &Grown, stored: &mut Stored, record: Record) -> bool {
    let object = record.byte(2);
    if grew(grown, record, 2) || grown.chains && has(&grown.objects, object) {
        return true;
    }
    if grown.prims && lacks_thrown(view, grown, record) {
        return true;
    }
    names_grew(grown, BY_PRIM)
        && (sees(view, stored, object, FIRST, 0) || sees(view, stored, object, SECOND, 0))
}

// Whether a record is worth a look.
pub fn wakes(view: &View, notes: &mut Notes, record: Record) -> bool {
    if notes.round.is_first() {
        return true;
    }
    let grown = &notes.grown;
    let stored = &mut notes.stored;
    match record.kind() {
        Some(Kind::Variable) => names_grew(grown, view.names_read(record)),
        Some(Kind::Load) => wakes_load(view, grown, stored, record),
        Some(Kind::Call) => wakes_call(view, grown, record),
        Some(Kind::New) => {
            // asked in any case, since it is also then that `stored` notes who sees what
            let as_new = wakes_new(view, grown, stored, record);
            as_new || wakes_call(view, grown, record)
        }
        Some(Kind::Catch) => has(&grown.scopes, record.byte(1)),
        Some(Kind::Prim) => wakes_prim(view, grown, stored, record),
        _ => false,
    }
}
