// Between whole passes: the search names a record, its rules are used, and what grew leads on.
#![tactic(auto)]

ghost use Rattle.std.specs.Prelude.{length};
ghost use Rattle.rows.specs.Edition.{labels};
ghost use Rattle.format.specs.Reading.{Readable};
ghost use Rattle.uses.specs.Use.{Lent};
ghost use Rattle.host.specs.Lays.{Known};
ghost use Rattle.program.specs.Program.{program_in};
ghost use Rattle.turns.specs.Steps.{StepsFor};

use crate::single::use_found;
use growth::rounds::begin_round;
use growth::sizes::Sizes;
use growth::written::note_written;
use host::Host;
use indexing::index::Index;
use indexing::notes::Notes;
use indexing::seen::HighWords;
use indexing::view::View;
use linking::past::Past;
use search::next::Place;

mod single;

// The first search is after so many passes: an ordinary file is settled before.
const FIRST: u8 = 4;

// The most turns without a whole pass: a bound by which the loop is seen to end. A search that is cut off costs time and no answer, since a pass follows.
const MOST: usize = 100000000;

// The search after so many passes: from what grew in them until nothing that it finds grows any more, or until it takes too many rounds. A later one, of a file that
// needed more than the first, looks for calls by variable too.
pub fn search_on(
    passes: u8,
    t: &mut [u64],
    wide: bool,
    file: &[u8],
    host: &Host,
    keeps: &mut [u64; 256],
)
    requires { Lent wide 0 (length t.old) × Readable (labels wide) file.now }
    ensures { Known wide (program_in (labels wide) file.now) host.now → StepsFor wide file.now t.old keeps.old t.new keeps.new }
{
    if passes < FIRST {
        return;
    }
    let mut index = Index::none(FIRST < passes);
    let mut high = HighWords::none();
    // a set of more than 64 labels has more than one word
    let lent = if 64 < rows::labels(wide) {
        Some(&mut high)
    } else {
        None
    };
    let mut notes = Notes::nothing(lent);
    let mut past = Past::nothing();
    let mut sizes = Sizes::none();
    let mut place = Place::start();
    let start = View {
        wide,
        t: &*t,
        file: &*file,
        host: &*host,
    };
    index.enter_all(&start);
    notes.seen.see_all(&start);
    'turns: for _ in 0..MOST {
        let before = View {
            wide,
            t: &*t,
            file: &*file,
            host: &*host,
        };
        if let Some(found) = place.next_noted(&before, &index, &mut notes) {
            let part = place.part(&before, &notes, found);
            if use_found(t, wide, file, host, keeps, found.position, part) {
                let after = View {
                    wide,
                    t: &*t,
                    file: &*file,
                    host: &*host,
                };
                note_written(&after, &mut notes, found.position);
                past.note_grown(&after, &index, &mut notes, found);
            }
        } else if notes.due.is_empty() {
            if notes.round.is_last(index.calls) {
                break 'turns;
            }
            begin_round(&before, &index, &mut sizes, &mut notes);
            place.begin_round(&index, &notes);
        }
    }
}
