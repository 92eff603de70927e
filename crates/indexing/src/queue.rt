// Positions that are to be used next, in the order in which they came.
use crate::position::Position;

const PLACES: usize = 1024;

#[derive(Drop)]
pub struct Queue {
    // their codes, in a ring
    places: [u16; PLACES],
    first: usize,
    count: usize,
}

impl Queue {
    pub fn empty() -> Queue {
        Queue {
            places: [0; PLACES],
            first: 0,
            count: 0,
        }
    }

    // Queues a position, where there is room.
    pub fn push(&mut self, position: Position) {
        if PLACES <= self.count {
            return;
        }
        self.places[(self.first % PLACES + self.count) % PLACES] = position.code();
        self.count += 1;
    }

    // Takes the first position.
    pub fn pop(&mut self) -> Option<Position> {
        if self.count == 0 {
            return None;
        }
        let at = self.first % PLACES;
        self.first = at + 1;
        self.count -= 1;
        Some(Position::of(self.places[at]))
    }
}
