// Where records begin: a bit for each byte of a file, in two arrays of 16,384 bits, since no array may be longer than 256 words.
ghost use Rattle.std.specs.Prelude.{◌≡◌, ◌⊎◌, List, ℕ, ◌+◌, ◌*◌, ◌/◌, ◌%◌, ◌<◌, get_or, eqb, IfSome};
ghost use Rattle.words.specs.Words.{bit};

use crate::position::Position;

#[derive(Drop)]
pub struct Starts {
    pub low: [u64; 256],
    pub high: [u64; 256],
}

// Sets the bit of position `at`; a position outside the 16,384 from `half` on is left out.
fn set_bit(starts: &mut [u64; 256], half: usize, at: usize)
    ensures { (b i : ℕ) → bit (get_or starts.new b 0) i ≡ 1 → (half + (64 * b + i) ≡ at) ⊎ (bit (get_or starts.old b 0) i ≡ 1) }
{
    if at < half {
        return;
    }
    let q = at - half;
    if 16384 <= q {
        return;
    }
    let w = q / 64;
    starts[w] = words::join(starts[w], words::single(q % 64));
}

impl Starts {
    ghost use Rattle.indexing.specs.Begins.{More, Begins, BeginsAt, Named, word_at};

    // Of no file.
    pub fn none() -> Starts
        ensures { (L : ℕ) (file : List ℕ) → Begins L file result }
    {
        Starts {
            low: [0; 256],
            high: [0; 256],
        }
    }

    // Sets the bit of position `at`; one beyond the 32,768 is left out.
    pub fn set(&mut self, at: usize)
        ensures { More at self.old self.new }
    {
        set_bit(&mut self.low, 0, at);
        set_bit(&mut self.high, 16384, at);
    }

    // Where records begin in the w-th 64 bytes.
    pub fn word(&self, w: usize) -> u64
        ensures { result ≡ word_at self.now w }
    {
        if w < 256 {
            return self.low[w];
        }
        if w < 512 {
            return self.high[w - 256];
        }
        0
    }

    // Whether a record begins at this place.
    pub fn contains(&self, at: usize) -> bool
        ensures { result ≡ eqb (bit (word_at self.now (at / 64)) (at % 64)) 1 }
    {
        words::contains(self.word(at / 64), at % 64)
    }

    // The position itself where a record begins there, or the lines.
    pub fn confirmed(&self, position: Position) -> Option<Position>
        ensures { (L : ℕ) (file : List ℕ) → Begins L file self.now → IfSome result (λ p. Named L file p) }
    {
        match position {
            Position::Record(at) => {
                if self.contains(at) {
                    return Some(position);
                }
                None
            }
            Position::Lines => Some(position),
        }
    }
}
