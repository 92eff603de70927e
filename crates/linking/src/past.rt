// What grew so far, and what to use next when it grows again: the records that grew something last, and links between those that did so one after the other.
use crate::ends::Ends;
use crate::links::{Links, codes};
use crate::recent::Recent;
use indexing::grown::Due;
use indexing::index::Index;
use indexing::notes::Notes;
use indexing::position::{Found, Position, Source};
use indexing::record::Record;
use indexing::view::View;
use layout::Kind;

#[derive(Drop)]
pub struct Past {
    links: Links,
    recent: Recent,
}

// Whether a link may be of use to a record that grew something, since it may be another's. Most records grow variables, a store properties.
fn is_apt(view: &View, index: &Index, due: &Due, record: Record, to: Record) -> bool {
    match record.kind() {
        Some(Kind::Grant | Kind::Copy | Kind::Load | Kind::Call | Kind::Catch) => {
            to.follows_new(index, due)
        }
        Some(Kind::Store) => words::meet(view.names_written(record), view.names_read(to)) != 0,
        _ => true,
    }
}

impl Past {
    pub fn nothing() -> Past {
        Past {
            links: Links::none(),
            recent: Recent::none(),
        }
    }

    // The latest that may be the cause of what a record grew that reads `to`.
    fn cause(&self, view: &View, to: Ends) -> Option<Position> {
        for back in 0..self.recent.count() {
            let from = self.recent.at(back);
            if Ends::written(view, from).feeds(&to) {
                return Some(from);
            }
        }
        None
    }

    // Queues what grew something after this one did.
    fn follow(&self, view: &View, index: &Index, notes: &mut Notes, position: Position) {
        let record = view.record(position);
        for links in self.links.of(position) {
            for code in codes(links) {
                let to = Position::of(code);
                if code != 0 && is_apt(view, index, &notes.due, record, view.record(to)) {
                    notes.queue.push(to);
                }
            }
        }
    }

    // What was found grew something. No link is made to what came from the queue. Kept apart from the loop of turns, which is faster so.
    #[inline(never)]
    pub fn note_grown(&mut self, view: &View, index: &Index, notes: &mut Notes, found: Found) {
        let record = view.record(found.position);
        if found.source != Source::Queue {
            // the lines at the start of a round
            if let Position::Lines = found.position {
                return;
            }
            if let Some(from) = self.cause(view, Ends::read(view, record)) {
                self.links.add(from, found.position);
            }
        }
        self.recent.push(found.position);
        self.follow(view, index, notes, found.position);
        if let Some(Kind::New) = record.kind() {
            notes.queue.push(Position::Lines);
        }
    }
}
