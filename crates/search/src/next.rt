// The next record to use: from the queue, else a reader of a variable that grew, else from the scan of the round.
ghost use Rattle.std.specs.Prelude.{List, ℕ, IfSome};
ghost use Rattle.rows.specs.Edition.{labels};
ghost use Rattle.indexing.specs.Begins.{Begins, Named};

use crate::readers::Reading;
use crate::rounds;
use crate::scan::Scan;
use indexing::index::Index;
use indexing::notes::Notes;
use indexing::position::{Found, Position, Source};
use indexing::starts::Starts;
use indexing::view::View;
use layout::Kind;
use sets::Set;

// As many positions as the queue has at most.
const QUEUED: usize = 1024;

// A position at which a record begins, or the lines, and where it comes from.
fn found(starts: &Starts, position: Position, source: Source) -> Option<Found>
    ensures { (L : ℕ) (file : List ℕ) → Begins L file starts.now → IfSome result (λ f. Named L file f.position) }
{
    let position = starts.confirmed(position)?;
    Some(Found { position, source })
}

// The next queued one.
fn next_queued(starts: &Starts, notes: &mut Notes) -> Option<Found>
    ensures { (L : ℕ) (file : List ℕ) → Begins L file starts.now → IfSome result (λ f. Named L file f.position) }
{
    for _ in 0..QUEUED {
        let position = notes.queue.pop()?;
        let next = found(starts, position, Source::Queue);
        if next.is_some() {
            return next;
        }
    }
    None
}

// Where the search is: which readers are left, and what of the round.
#[derive(Drop)]
pub struct Place {
    reading: Reading,
    round: Scan,
}

impl Place {
    // Before the first round.
    pub fn start() -> Place {
        Place {
            reading: Reading::done(),
            round: Scan::done(),
        }
    }

    // A round begins.
    pub fn begin_round(&mut self, index: &Index, notes: &Notes) {
        self.round = rounds::begun(index, notes);
    }

    // The next position to use; none where nothing is left of the readers of a variable. Where no variable is due then, the round is over. It goes by
    // `notes.grown.chains`, which `begin_round` of the crate growth sets.
    pub fn next_noted(&mut self, view: &View, index: &Index, notes: &mut Notes) -> Option<Found>
        ensures { Begins (labels view.now.wide) view.now.file.now index.now.starts → IfSome result (λ f. Named (labels view.now.wide) view.now.file.now f.position) }
    {
        self.reading.begin(view, index, notes);
        let queued = next_queued(&index.starts, notes);
        if queued.is_some() {
            return queued;
        }
        if let Some(position) = self.reading.next(view, index) {
            let source = Source::Readers;
            return Some(Found { position, source });
        }
        if !notes.due.is_empty() {
            return None;
        }
        if notes.round.lines {
            notes.round.lines = false;
            return Some(Found {
                position: Position::Lines,
                source: Source::Round,
            });
        }
        let at = rounds::next_noted(&mut self.round, view, index, notes)?;
        found(&index.starts, Position::Record(at), Source::Round)
    }

    // The same for notes in which what grew was put down by hand: `chains` need not say so then, and all is looked at as if a chain had grown.
    pub fn next(&mut self, view: &View, index: &Index, notes: &mut Notes) -> Option<Found>
        ensures { Begins (labels view.now.wide) view.now.file.now index.now.starts → IfSome result (λ f. Named (labels view.now.wide) view.now.file.now f.position) }
    {
        notes.grown.chains = true;
        self.next_noted(view, index, notes)
    }

    // The labels that are all that is new in the object of a load, where they are known.
    pub fn part(&self, view: &View, notes: &Notes, found: Found) -> Option<Set> {
        let record = view.record(found.position);
        if record.kind() != Some(Kind::Load) {
            return None;
        }
        let object = record.byte(3);
        match found.source {
            Source::Queue if notes.due.has(object) => Some(notes.seen.news(view, object)),
            Source::Readers => Some(self.reading.part()),
            _ => None,
        }
    }
}
