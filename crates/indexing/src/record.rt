// The parts of a record that the search looks at.
use crate::bytes::{one, put};
use crate::grown::Due;
use crate::index::Index;
use layout::Kind;
use sets::Set;

// A record, by the bytes of the file from its kind on. All of these answer for any bytes: one beyond the file is 0.
#[derive(Clone, Copy)]
pub struct Record<'a> {
    bytes: &'a [u8],
}

// What stands for no name.
const NO_NAME: u8 = 255;

impl<'a> Record<'a> {
    // The record at this place of a file; one beyond it has no bytes.
    pub fn at(file: &'a [u8], at: usize) -> Record<'a> {
        Record {
            bytes: &file[at.min(file.len())..],
        }
    }

    // No record.
    pub fn none() -> Record<'a> {
        Record { bytes: &[] }
    }

    // Byte j: the kind is byte 0.
    pub fn byte(self, j: usize) -> u8 {
        match self.bytes.get(j) {
            Some(byte) => *byte,
            None => 0,
        }
    }

    pub fn kind(self) -> Option<Kind> {
        Kind::of(self.byte(0))
    }

    // Some of its bytes, as a set.
    pub fn bytes(self, which: &[usize]) -> Set {
        let mut all = sets::none(true);
        for j in which {
            put(&mut all, self.byte(*j));
        }
        all
    }

    // Of a call its callee, `this` and arguments; of a new all but the last argument.
    pub fn inputs(self) -> &'a [u8] {
        self.bytes.get(3..11).unwrap_or(&[])
    }

    // Which of its bytes are rows that it reads: variables, the scope of a catch, the w of a load.
    pub fn reads(self) -> &'static [usize] {
        match self.kind() {
            Some(Kind::Variable | Kind::Grant | Kind::Catch) => &[1],
            Some(Kind::Copy) => &[3],
            Some(Kind::Load) => &[3, 5],
            Some(Kind::Store) => &[2, 4],
            Some(Kind::Call) => &[3, 4, 5, 6, 7, 8, 9, 10],
            Some(Kind::New) => &[3, 4, 6, 7, 8, 9, 10, 11],
            Some(Kind::Throw | Kind::Prim) => &[2],
            _ => &[],
        }
    }

    // ---- the variables by which a record is looked for when they grow: of statements that read one or two, and of calls where `calls`. They stand three times, one
    // below the other: as a set for the index, and as the two tests that the search makes most

    // Those of this record. A variable without a name says nothing, a grant reads variable 1 too.
    pub fn followed(self, calls: bool) -> Set {
        match self.kind() {
            Some(Kind::Variable) if self.byte(3) != NO_NAME => self.bytes(&[1]),
            Some(Kind::Grant) => sets::union(true, one(1), self.bytes(&[1])),
            Some(Kind::Copy | Kind::Load) => self.bytes(&[3]),
            Some(Kind::Store) => self.bytes(&[2, 4]),
            Some(Kind::Call) if calls => self.bytes(self.reads()),
            Some(Kind::Throw) => self.bytes(&[2]),
            _ => sets::none(true),
        }
    }

    // Whether v is one of them.
    pub fn follows(self, calls: bool, v: u8) -> bool {
        match self.kind() {
            Some(Kind::Variable) => self.byte(1) == v && self.byte(3) != NO_NAME,
            Some(Kind::Grant) => self.byte(1) == v || v == 1,
            Some(Kind::Copy | Kind::Load) => self.byte(3) == v,
            Some(Kind::Store) => self.byte(2) == v || self.byte(4) == v,
            Some(Kind::Call) => calls && self.calls_with(v),
            Some(Kind::Throw) => self.byte(2) == v,
            _ => false,
        }
    }

    // Whether one of them holds something new; of other records, and of those that read a name or the bag too, nothing is known.
    pub fn follows_new(self, index: &Index, due: &Due) -> bool {
        match self.kind() {
            Some(Kind::Copy | Kind::Load) => due.has(self.byte(3)),
            Some(Kind::Store) => due.has(self.byte(2)) || due.has(self.byte(4)),
            Some(Kind::Call) => self.call_follows_new(index, due.newest),
            Some(Kind::Throw) => due.has(self.byte(2)),
            _ => true,
        }
    }

    // Whether v is the callee, the `this` or an argument of a call.
    fn calls_with(self, v: u8) -> bool {
        for input in self.inputs() {
            if *input == v {
                return true;
            }
        }
        false
    }

    // Whether a call reads the variable that grew last, or there is a return of it. Nothing is known where calls are not looked for by variable, since one that is passed
    // over is found in a round only.
    fn call_follows_new(self, index: &Index, newest: u8) -> bool {
        !index.calls || self.calls_with(newest) || index.is_returned(newest)
    }
}
