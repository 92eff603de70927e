// What the search goes by: the table as it is now, the file, and what the engine has of its declarations.
ghost use Rattle.std.specs.Prelude.{◌≤◌, length};
ghost use Rattle.rows.specs.Edition.{word_count};

use crate::bytes::one;
use crate::position::Position;
use crate::record::Record;
use host::Host;
use layout::Kind;
use rows::{Label, Var};
use sets::Set;

// The names under which a prim looks, 1 and 2, and a new, 3.
pub const BY_PRIM: u64 = 0x6;

pub const BY_NEW: u64 = 0x8;

#[derive(Clone, Copy)]
pub struct View<'a> {
    pub wide: bool,
    pub t: &'a [u64],
    pub file: &'a [u8],
    pub host: &'a Host<'a>,
    ghost full: { word_count wide ≤ length t.now },
}

impl View<'_> {
    // The record at a position; the lines are none.
    pub fn record(&self, position: Position) -> Record {
        match position {
            Position::Record(at) => Record::at(self.file, at),
            Position::Lines => Record::none(),
        }
    }

    // What variable v holds.
    pub fn held(&self, v: u8) -> Set {
        uses::held(self.t, self.wide, Var(v))
    }

    // What is thrown in the scope of this number; nothing where it has none.
    pub fn thrown(&self, k: u8) -> Set {
        if rows::labels(self.wide) <= usize::from(k) {
            return sets::none(self.wide);
        }
        lent::row(self.t, 0, self.wide, Label(k).thrown(self.wide))
    }

    // The chain of the label of this number; none where it has none.
    pub fn chain(&self, l: u8) -> Set {
        if rows::labels(self.wide) <= usize::from(l) {
            return sets::none(self.wide);
        }
        lent::row(self.t, 0, self.wide, Label(l).chain(self.wide))
    }

    // The names that a key stands for.
    pub fn names(&self, key: u8) -> u64 {
        if layout::is_key(key) {
            return self.host.names(key);
        }
        0
    }

    // The names under which a record looks.
    pub fn names_read(&self, record: Record) -> u64 {
        match record.kind() {
            Some(Kind::Variable) => name_of(record.byte(3)),
            Some(Kind::Load) => self.names(record.byte(4)),
            Some(Kind::New) => BY_NEW,
            Some(Kind::Prim) => BY_PRIM,
            _ => 0,
        }
    }

    // The names under which it stores.
    pub fn names_written(&self, record: Record) -> u64 {
        match record.kind() {
            Some(Kind::Variable) => name_of(record.byte(3)),
            Some(Kind::Store) => self.names(record.byte(3)),
            _ => 0,
        }
    }

    // What it stores.
    pub fn stored(&self, record: Record) -> Set {
        match record.kind() {
            Some(Kind::Variable) => self.held(record.byte(1)),
            Some(Kind::Store) => self.held(record.byte(4)),
            _ => sets::none(self.wide),
        }
    }

    // The labels in whose objects it stores.
    pub fn owners(&self, record: Record) -> Set {
        match record.kind() {
            Some(Kind::Variable) => one(0),
            Some(Kind::Store) => self.held(record.byte(2)),
            _ => sets::none(self.wide),
        }
    }

    // The functions that it may call, as far as the table tells; for a prim all functions.
    pub fn callees(&self, record: Record) -> Set {
        match record.kind() {
            Some(Kind::Call | Kind::New) => {
                let s = self.held(record.byte(3));
                self.host.functions_among(self.wide, s)
            }
            Some(Kind::Prim) => self.host.functions,
            _ => sets::none(self.wide),
        }
    }
}

// The name of a variable's record, where it has one.
fn name_of(name: u8) -> u64 {
    if name < 32 {
        return words::single(usize::from(name));
    }
    0
}
