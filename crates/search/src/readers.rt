// The readers of the variables that grew (`Record::follows`). They are used at once, variable by variable, the one that grew last first.
ghost use Rattle.std.specs.Prelude.{List, ℕ, IfSome};
ghost use Rattle.indexing.specs.Begins.{Begins, Named};

use crate::scan::Scan;
use indexing::bytes::one;
use indexing::grown::Due;
use indexing::index::Index;
use indexing::notes::Notes;
use indexing::position::Position;
use indexing::record::Record;
use indexing::view::View;
use sets::Set;

// The readers of one variable, as far as they are left.
#[derive(Drop)]
pub struct Reading {
    variable: u8,
    // what was new in it
    part: Set,
    scan: Scan,
}

// The variable that is next: the one that grew last, else the lowest.
fn next_due(due: &Due) -> Option<u8> {
    if due.has(due.newest) {
        return Some(due.newest);
    }
    let lowest = sets::labels(true, due.variables).next()?;
    Some(lowest.0)
}

impl Reading {
    // No readers are left.
    pub fn done() -> Reading {
        Reading {
            variable: 0,
            part: sets::none(true),
            scan: Scan::done(),
        }
    }

    // What was new in the variable when its readers were begun, for which they are used.
    pub fn part(&self) -> Set {
        self.part
    }

    // Begins with the readers of the next variable, where those of the last one are through.
    pub fn begin(&mut self, view: &View, index: &Index, notes: &mut Notes) {
        if self.scan.goes_on() {
            return;
        }
        let Some(v) = next_due(&notes.due) else {
            return;
        };
        notes.due.variables = sets::without(true, notes.due.variables, one(v));
        self.variable = v;
        self.part = notes.seen.news(view, v);
        self.scan = Scan::of(
            index.readers.blocks(v),
            2,
            index.readers.even(v),
            index.readers.odd(v),
        );
        notes.seen.see(view, v);
    }

    // The next reader. Kept apart from the loop of turns, which is faster so.
    #[inline(never)]
    pub fn next(&mut self, view: &View, index: &Index) -> Option<Position>
        ensures { (L : ℕ) (file : List ℕ) → Begins L file index.now.starts → IfSome result (λ p. Named L file p) }
    {
        let at = self.scan.find(&index.starts, |at| {
            Record::at(view.file, at).follows(index.calls, self.variable)
        })?;
        index.starts.confirmed(Position::Record(at))
    }
}
