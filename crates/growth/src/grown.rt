// The callees and objects that are concerned by what grew.

use indexing::bytes::{add, has, put};
use indexing::grown::Grown;
use indexing::index::Roles;
use indexing::view::{BY_PRIM, View};
use rows::Label;
use sets::Set;

// The guest's label; those before it are no functions.
const FIRST_FUNCTION: usize = 3;

// Those of the variables that hold one of the labels.
fn holders(view: &View, variables: Set, labels: Set) -> Set {
    let mut all = sets::none(true);
    for v in sets::labels(true, variables) {
        let held = sets::meet(view.wide, view.held(v.0), labels);
        if !sets::is_empty(view.wide, held) {
            put(&mut all, v.0);
        }
    }
    all
}

// What the variables hold.
fn held_by(view: &View, variables: Set) -> Set {
    let mut all = sets::none(view.wide);
    for v in sets::labels(true, variables) {
        all = sets::union(view.wide, all, view.held(v.0));
    }
    all
}

// Notes whether a function throws more or hands back more, and what.
fn note_function(view: &View, grown: &mut Grown, f: Label) {
    if has(&grown.scopes, f.0) {
        put(&mut grown.functions, f.0);
        add(&mut grown.thrown, view.thrown(f.0));
    }
    let more = sets::meet(true, view.host.returns.of(f), grown.variables);
    if !sets::is_empty(true, more) {
        put(&mut grown.functions, f.0);
        add(&mut grown.handed, held_by(view, more));
    }
}

// Whether a function that throws more stands under name 1 or 2 of some label, so that a prim may call it.
fn prims_grew(view: &View, scopes: Set) -> bool {
    if sets::is_empty(true, scopes) {
        return false;
    }
    let called = uses::gather_under(view.t, view.wide, BY_PRIM, sets::full(view.wide));
    !sets::is_empty(view.wide, sets::meet(view.wide, called, scopes))
}

// The functions that hand back or throw more, and what that is; the callees and objects that are concerned.
pub fn note_concerned(view: &View, roles: &Roles, grown: &mut Grown) {
    for l in FIRST_FUNCTION..rows::labels(view.wide) {
        note_function(view, grown, Label(l as u8));
    }
    grown.callees = holders(view, roles.callees, grown.functions);
    grown.objects = holders(view, roles.objects, grown.labels);
    grown.chains = !sets::is_empty(true, grown.labels);
    grown.prims = prims_grew(view, grown.scopes);
}
