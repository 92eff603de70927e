// A scan of a file: where records begin in blocks that are marked.
ghost use Rattle.std.specs.Prelude.{◌≤◌, ◌<◌};

use indexing::bytes::take;
use indexing::starts::Starts;
use sets::Set;

// The number of 64 bytes in a file.
const WORDS: usize = 512;

#[derive(Drop)]
pub struct Scan {
    // the marked blocks that are left, and how many times 64 bytes a block has: 2 or 8
    blocks: Set,
    size: usize,
    // at which places of 64 bytes with an even number a record counts, and of those with an odd one
    even: u64,
    odd: u64,
    // where the scan is, by the number of 64 bytes: how many of the block are left behind it, and the records that are left here
    word: usize,
    after: usize,
    bits: u64,
    ghost in_range: { (size ≤ 8) × (word < 512) },
}

impl Scan {
    // A scan with nothing left.
    pub fn done() -> Scan {
        Scan::of(sets::none(true), 0, 0, 0)
    }

    // A scan of these blocks, from the first on.
    pub fn of(blocks: Set, size: usize, even: u64, odd: u64) -> Scan
        requires { size ≤ 8 }
    {
        Scan {
            blocks,
            size,
            even,
            odd,
            word: 0,
            after: 0,
            bits: 0,
        }
    }

    // Whether there may be something left.
    pub fn goes_on(&self) -> bool {
        self.bits != 0 || self.after != 0 || !sets::is_empty(true, self.blocks)
    }

    // The next 64 bytes of the block, or the first of the next marked one.
    fn next_word(&mut self) -> Option<usize> {
        if self.after != 0 {
            self.after -= 1;
            return Some(self.word + 1);
        }
        let block = take(&mut self.blocks)?;
        self.after = self.size.saturating_sub(1);
        Some(self.size * usize::from(block))
    }

    // The next place where a record begins of which the test holds.
    pub fn find<F: FnMut(usize) -> bool>(&mut self, starts: &Starts, mut test: F) -> Option<usize>
        requires { F.IsAlwaysCallable test }
    {
        for _ in 0..=WORDS {
            let from = 64 * self.word;
            let mut left = self.bits;
            while let Some(place) = words::take(&mut left) {
                if test(from + place) {
                    self.bits = left;
                    return Some(from + place);
                }
            }
            self.bits = 0;
            self.word = self.next_word()? % WORDS;
            let places = if self.word % 2 == 0 {
                self.even
            } else {
                self.odd
            };
            self.bits = words::meet(starts.word(self.word), places);
        }
        None
    }
}
