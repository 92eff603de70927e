// The records that grew something last, and the lines among them.
ghost use Rattle.std.specs.Prelude.{◌≤◌};

use indexing::position::Position;

const PLACES: usize = 512;

#[derive(Drop)]
pub struct Recent {
    // their codes, in a ring
    places: [u16; PLACES],
    next: usize,
    count: usize,
    ghost in_range: { count ≤ 512 },
}

impl Recent {
    pub fn none() -> Recent {
        Recent {
            places: [0; PLACES],
            next: 0,
            count: 0,
        }
    }

    // This one grew something.
    pub fn push(&mut self, position: Position) {
        let place = self.next % PLACES;
        self.places[place] = position.code();
        self.next = place + 1;
        if self.count < PLACES {
            self.count += 1;
        }
    }

    // How many there are, at most 512.
    pub fn count(&self) -> usize
        ensures { result ≤ 512 }
    {
        self.count
    }

    // The one that did so last, where `back` is 0, and so on.
    pub fn at(&self, back: usize) -> Position {
        let place = self.next % PLACES;
        Position::of(self.places[(place + (PLACES - 1 - back % PLACES)) % PLACES])
    }
}
