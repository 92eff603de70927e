// Links from a record that grew something to those that did so after it. They stand at two of 512 places, which a hash of its position gives: up to four at each,
// as codes of 16 bits, the last made lowest; 0 is none. Places are shared, and a link may be another record's.
ghost use Rattle.std.specs.Prelude.{◌<◌};

use indexing::position::Position;

#[derive(Drop)]
pub struct Links {
    low: [u64; 256],
    high: [u64; 256],
}

// The first place of a position, a hash.
fn place_of(position: Position) -> usize
    ensures { result < 512 }
{
    let spread = u64::from(position.code()) * 173961102589770;
    let mixed = ((spread ^ (spread >> 29)) % 4294967296) as u32;
    (mixed.wrapping_mul(3210233709) >> 23) as usize
}

// The other place of a pair.
fn second(place: usize) -> usize
    requires { place < 512 }
    ensures { result < 512 }
{
    place ^ 1
}

// The four links at a place.
pub fn codes(links: u64) -> [u16; 4] {
    [
        (links % 65536) as u16,
        ((links >> 16) % 65536) as u16,
        ((links >> 32) % 65536) as u16,
        (links >> 48) as u16,
    ]
}

// Whether there is this one among them.
fn is_linked(links: u64, code: u16) -> bool {
    codes(links).contains(&code)
}

// Whether there is no room for another.
fn is_full(links: u64) -> bool {
    links >> 48 != 0
}

impl Links {
    pub fn none() -> Links {
        Links {
            low: [0; 256],
            high: [0; 256],
        }
    }

    // The links at a place.
    fn at(&self, place: usize) -> u64
        requires { place < 512 }
    {
        if place < 256 {
            self.low[place]
        } else {
            self.high[place - 256]
        }
    }

    // One more, below those that are there.
    fn put(&mut self, place: usize, code: u16)
        requires { place < 512 }
    {
        let links = (self.at(place) << 16) | u64::from(code);
        if place < 256 {
            self.low[place] = links;
        } else {
            self.high[place - 256] = links;
        }
    }

    // The links of a position, a word for each of its places.
    pub fn of(&self, position: Position) -> [u64; 2] {
        let place = place_of(position);
        [self.at(place), self.at(second(place))]
    }

    // Makes a link, at the second place where the first alone is full.
    pub fn add(&mut self, from: Position, to: Position) {
        let code = to.code();
        let [links, more] = self.of(from);
        if is_linked(links, code) || is_linked(more, code) {
            return;
        }
        let place = place_of(from);
        if is_full(links) && !is_full(more) {
            self.put(second(place), code);
        } else {
            self.put(place, code);
        }
    }
}
