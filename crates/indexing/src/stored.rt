// Under which names something was stored in each label, and which labels see that under a key. Nothing is promised.
ghost use Rattle.std.specs.Prelude.{◌<◌};

use crate::bytes::{mark, one};
use crate::view::View;
use sets::Set;

// How many keys there are.
const KEYS: usize = 48;

#[derive(Drop)]
pub struct Stored {
    // of each label a word: below the names since the round began, above those of the time before, for which the round looks
    names: [u64; 256],
    // of each key the labels with one on their chain in which something was stored under it, once this was asked for
    seers: [Set; KEYS],
    // the keys that were asked for
    asked: u64,
}

// The place of a key: names, classes, the names outside them.
fn place(key: u8) -> usize
    ensures { result < 48 }
{
    if key < 32 {
        return usize::from(key);
    }
    32 + usize::from(key % 16)
}

impl Stored {
    pub fn nothing() -> Stored {
        Stored {
            names: [0; 256],
            seers: [sets::none(true); KEYS],
            asked: 0,
        }
    }

    // Notes that something was stored in these labels under these names.
    pub fn note(&mut self, owners: Set, names: u64) {
        mark(&mut self.names, owners, names);
    }

    // A round begins.
    pub fn begin(&mut self) {
        for l in 0..256usize {
            self.names[l] = self.names[l] << 32;
        }
        self.asked = 0;
    }

    // The labels in which something was stored under these names.
    fn owners(&self, names: u64) -> Set {
        let mut all = sets::none(true);
        for l in 0..=255u8 {
            if words::meet(self.names[usize::from(l)] >> 32, names) != 0 {
                all = sets::union(true, all, one(l));
            }
        }
        all
    }

    // The labels with one of the owners on their chain.
    fn seers(view: &View, owners: Set) -> Set {
        let mut all = sets::none(true);
        for l in 0..=255u8 {
            let on = sets::meet(view.wide, view.chain(l), owners);
            if !sets::is_empty(view.wide, on) {
                all = sets::union(true, all, one(l));
            }
        }
        all
    }

    // The labels that see something that was stored under a key.
    pub fn seers_of(&mut self, view: &View, key: u8) -> Set {
        let k = place(key);
        if !words::contains(self.asked, k) {
            self.asked = words::join(self.asked, words::single(k));
            self.seers[k] = Stored::seers(view, self.owners(view.names(key)));
        }
        self.seers[k]
    }
}
