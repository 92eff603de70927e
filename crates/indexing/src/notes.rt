// What the search has noted so far.
use crate::grown::{Due, Grown, Written};
use crate::queue::Queue;
use crate::round::Round;
use crate::seen::{HighWords, Seen};
use crate::stored::Stored;

#[derive(Drop)]
pub struct Notes<'a> {
    // what is to be used next
    pub queue: Queue,
    // whose readers are to be used, and for what they have been
    pub due: Due,
    pub seen: Seen<'a>,
    // since the last round
    pub written: Written,
    pub stored: Stored,
    // for this one
    pub grown: Grown,
    pub round: Round,
}

impl<'a> Notes<'a> {
    // Nothing yet; the high words are what `Seen` is lent.
    pub fn nothing(high: Option<&'a mut HighWords>) -> Self {
        Notes {
            queue: Queue::empty(),
            due: Due::none(),
            seen: Seen::nothing(high),
            written: Written::nothing(),
            stored: Stored::nothing(),
            grown: Grown::nothing(),
            round: Round::none(),
        }
    }
}
