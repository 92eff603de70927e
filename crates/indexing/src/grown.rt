// What the search notes of growth: since the last round, for this one, and for the readers of a variable.
use crate::bytes::{has, put};
use sets::Set;

// Variables that hold something new to their readers, and the one that grew last.
#[derive(Drop)]
pub struct Due {
    pub variables: Set,
    pub newest: u8,
}

impl Due {
    pub fn none() -> Due {
        Due {
            variables: sets::none(true),
            newest: 0,
        }
    }

    pub fn has(&self, v: u8) -> bool {
        has(&self.variables, v)
    }

    pub fn is_empty(&self) -> bool {
        sets::is_empty(true, self.variables)
    }

    // Variable v grew.
    pub fn put(&mut self, v: u8) {
        put(&mut self.variables, v);
        self.newest = v;
    }
}

// What was written since the last round: variables that grew, what was stored and under which names.
#[derive(Drop)]
pub struct Written {
    pub variables: Set,
    pub stored: Set,
    pub names: u64,
}

impl Written {
    // Nothing, so far.
    pub fn nothing() -> Written {
        Written {
            variables: sets::none(true),
            stored: sets::none(true),
            names: 0,
        }
    }
}

// What grew before a round, which the round goes by.
#[derive(Drop)]
pub struct Grown {
    // the names under which something was stored, and what
    pub names: u64,
    pub stored: Set,
    // rows of variables
    pub variables: Set,
    // variables that hold a function that hands back or throws more, and those that hold a label whose chain grew
    pub callees: Set,
    pub objects: Set,
    // rows of T and of P; whether some of P did: one bit, which a round asks before the sets (but for `Place::next` of the crate search)
    pub scopes: Set,
    pub labels: Set,
    pub chains: bool,
    // what functions hand back more of, what is thrown more of (and perhaps more)
    pub handed: Set,
    pub thrown: Set,
    // the functions that hand back or throw more; whether one that throws more may be called by a prim
    pub functions: Set,
    pub prims: bool,
}

impl Grown {
    // Nothing, so far.
    pub fn nothing() -> Grown {
        let none = sets::none(true);
        Grown {
            names: 0,
            stored: none,
            variables: none,
            callees: none,
            objects: none,
            scopes: none,
            labels: none,
            chains: false,
            handed: none,
            thrown: none,
            functions: none,
            prims: false,
        }
    }
}
