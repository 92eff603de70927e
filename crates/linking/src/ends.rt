// What a record reads and what it may write, for links: variables, scopes, names, and whether chains are concerned. A call writes the formals of the
// functions that its callee holds now, and reads what they return and throw.
use indexing::bytes::{add, one, put};
use indexing::position::Position;
use indexing::record::Record;
use indexing::view::View;
use layout::Kind;
use sets::Set;

#[derive(Clone, Copy)]
pub struct Ends {
    pub variables: Set,
    pub scopes: Set,
    pub names: u64,
    pub chains: bool,
}

// ---- written

// `this` and six formals.
const INPUTS: usize = 7;

// The inputs of the functions that a record may call; for a prim the first of each.
fn inputs(view: &View, record: Record) -> Set {
    let is_prim = record.kind() == Some(Kind::Prim);
    let mut all = sets::none(true);
    for f in sets::labels(view.wide, view.callees(record)) {
        let first = INPUTS * usize::from(f.0);
        put(&mut all, view.host.sheet.formals[first]);
        if !is_prim {
            for j in 1..INPUTS {
                put(&mut all, view.host.sheet.formals[first + j]);
            }
        }
    }
    all
}

// The variables of the record's own that it writes.
fn own_written(record: Record) -> Set {
    match record.kind() {
        Some(Kind::Variable) => record.bytes(&[1]),
        Some(Kind::Grant) => sets::union(true, record.bytes(&[1]), one(1)),
        Some(
            Kind::Copy | Kind::Load | Kind::Make | Kind::MakeFunction | Kind::Call | Kind::Catch,
        ) => { record.bytes(&[2]) }
        Some(Kind::New) => record.bytes(&[2, 4]),
        _ => sets::none(true),
    }
}

// The scopes that it writes.
fn scopes_written(record: Record) -> Set {
    match record.kind() {
        Some(Kind::Call | Kind::New | Kind::Throw | Kind::Prim) => record.bytes(&[1]),
        _ => sets::none(true),
    }
}

// ---- read

// The variables of the record's own that it reads: of a load the object alone.
fn own_read(record: Record) -> Set {
    match record.kind() {
        Some(Kind::Grant) => sets::union(true, record.bytes(&[1]), one(1)),
        Some(Kind::Load) => record.bytes(&[3]),
        Some(Kind::Catch) => sets::none(true),
        _ => record.bytes(record.reads()),
    }
}

// The scope of a catch.
fn caught(record: Record) -> Set {
    match record.kind() {
        Some(Kind::Catch) => record.bytes(&[1]),
        _ => sets::none(true),
    }
}

// The variables that these functions return.
fn returned_by(view: &View, functions: Set) -> Set {
    let mut all = sets::none(true);
    for f in sets::labels(view.wide, functions) {
        add(&mut all, view.host.returns.of(f));
    }
    all
}

impl Ends {
    // What a record, or the lines, may write. Variable 0 keeps nothing.
    pub fn written(view: &View, position: Position) -> Ends {
        if let Position::Lines = position {
            return Ends {
                variables: sets::none(true),
                scopes: sets::none(true),
                names: 0,
                chains: true,
            };
        }
        let record = view.record(position);
        let variables = sets::union(true, inputs(view, record), own_written(record));
        Ends {
            variables: sets::without(true, variables, one(0)),
            scopes: scopes_written(record),
            names: view.names_written(record),
            chains: matches!(record.kind(), Some(Kind::New)),
        }
    }

    // What a record reads. A prim reads none of what its functions return.
    pub fn read(view: &View, record: Record) -> Ends {
        let functions = view.callees(record);
        let handed = match record.kind() {
            Some(Kind::Prim) => sets::none(true),
            _ => returned_by(view, functions),
        };
        Ends {
            variables: sets::union(true, own_read(record), handed),
            scopes: sets::union(true, caught(record), functions),
            names: view.names_read(record),
            chains: matches!(record.kind(), Some(Kind::Load | Kind::New | Kind::Prim)),
        }
    }

    // Whether what one writes is read by the other.
    pub fn feeds(&self, to: &Ends) -> bool {
        let variables = sets::meet(true, self.variables, to.variables);
        let scopes = sets::meet(true, self.scopes, to.scopes);
        !sets::is_empty(true, variables)
            || !sets::is_empty(true, scopes)
            || words::meet(self.names, to.names) != 0
            || (self.chains && to.chains)
    }
}
