// The index: where records begin that read something; in which blocks of 512 bytes a round has to look where a variable, label, scope or name grew; and the
// readers of each variable that are used at once.
ghost use Rattle.std.specs.Prelude.{◌≡◌, List, ℕ, ◌<◌, ◌≤◌, length};
ghost use Rattle.rows.specs.Edition.{labels};
ghost use Rattle.format.specs.Reading.{Readable, longest};
ghost use Rattle.records.specs.Walk.{Walk};

use crate::bytes::{has, mark, mark_names, marked, marked_names, put};
use crate::readers::Readers;
use crate::record::Record;
use crate::starts::Starts;
use crate::view::View;
use layout::Kind;
use sets::Set;

#[derive(Drop)]
pub struct Index {
    // where records begin that read something
    pub starts: Starts,
    // the variables' readers, calls among them where `calls`
    pub readers: Readers,
    pub calls: bool,
    // for each byte the blocks with a record that is looked at when it grew; for each name those with one that looks under it
    blocks: [u64; 256],
    named: [u64; 32],
    pub roles: Roles,
}

// The variables that are a record's callee; those that are the object of a load, a new or a prim; those that are returned.
#[derive(Drop)]
pub struct Roles {
    pub callees: Set,
    pub objects: Set,
    pub returned: Set,
}

impl Roles {
    fn none() -> Roles {
        Roles {
            callees: sets::none(true),
            objects: sets::none(true),
            returned: sets::none(true),
        }
    }

    // Notes those of a record.
    fn note(&mut self, record: Record) {
        match record.kind() {
            Some(Kind::Load) => put(&mut self.objects, record.byte(3)),
            Some(Kind::Call) => put(&mut self.callees, record.byte(3)),
            Some(Kind::New) => {
                put(&mut self.callees, record.byte(3));
                put(&mut self.objects, record.byte(3));
            }
            Some(Kind::Prim) => put(&mut self.objects, record.byte(2)),
            Some(Kind::Return) => put(&mut self.returned, record.byte(2)),
            _ => {}
        }
    }
}

// The bytes under which a record stands in the index: what it is looked at for in a round. A load's object is not among them: the load is used at once when its
// object grows.
fn entries(record: Record) -> Set {
    match record.kind() {
        Some(Kind::Load) => record.bytes(&[5]),
        Some(Kind::Call | Kind::New | Kind::Catch | Kind::Prim) => record.bytes(record.reads()),
        _ => sets::none(true),
    }
}

impl Index {
    ghost use Rattle.indexing.specs.Begins.{Begins};

    // Of no file; `calls` says whether calls are to be among the readers of variables.
    pub fn none(calls: bool) -> Index
        ensures { (L : ℕ) (file : List ℕ) → Begins L file result.starts }
    {
        Index {
            starts: Starts::none(),
            readers: Readers::none(),
            calls,
            blocks: [0; 256],
            named: [0; 32],
            roles: Roles::none(),
        }
    }

    // Enters the records of the file.
    pub fn enter_all(&mut self, view: &View)
        requires { Readable (labels view.now.wide) view.now.file.now × (length view.now.file.now ≤ longest) × Begins (labels view.now.wide) view.now.file.now self.old.starts }
        ensures { Begins (labels view.now.wide) view.now.file.now self.new.starts }
    {
        for at in records::positions(view.file) {
            self.enter(view, at);
        }
    }

    // Enters the record at `at`, if it reads something, and notes what it returns.
    fn enter(&mut self, view: &View, at: usize)
        requires { Walk (labels view.now.wide) view.now.file.now at × (at < length view.now.file.now) × Begins (labels view.now.wide) view.now.file.now self.old.starts }
        ensures { Begins (labels view.now.wide) view.now.file.now self.new.starts }
    {
        let record = Record::at(view.file, at);
        self.readers.enter(at, record.followed(self.calls));
        self.roles.note(record);
        if record.reads().is_empty() {
            return;
        }
        self.starts.set(at);
        let block = words::single(at / 512 % 64);
        mark(&mut self.blocks, entries(record), block);
        mark_names(&mut self.named, view.names_read(record), block);
    }

    // The blocks in which something is to be looked at for a byte of s.
    pub fn blocks_of(&self, s: Set) -> u64 {
        marked(&self.blocks, s)
    }

    // The blocks in which one of the names is looked under.
    pub fn blocks_named(&self, names: u64) -> u64 {
        marked_names(&self.named, names)
    }

    // Whether there is a return of variable v.
    pub fn is_returned(&self, v: u8) -> bool {
        has(&self.roles.returned, v)
    }
}
