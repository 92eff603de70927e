// The readers of each variable that are used at once: for each variable the blocks of 128 bytes that have some, 64 of them in each of four arrays (none may
// be longer than 256 words), and at which places of a block, a word for each half.
use crate::bytes::mark;
use sets::Set;

#[derive(Drop)]
pub struct Readers {
    first: [u64; 256],
    second: [u64; 256],
    third: [u64; 256],
    fourth: [u64; 256],
    even: [u64; 256],
    odd: [u64; 256],
}

impl Readers {
    // Of no file.
    pub fn none() -> Readers {
        Readers {
            first: [0; 256],
            second: [0; 256],
            third: [0; 256],
            fourth: [0; 256],
            even: [0; 256],
            odd: [0; 256],
        }
    }

    // Enters the record at `at` under these variables.
    pub fn enter(&mut self, at: usize, variables: Set) {
        self.enter_block(at, variables);
        self.enter_place(at, variables);
    }

    fn enter_block(&mut self, at: usize, variables: Set) {
        let block = words::single(at / 128 % 64);
        if at < 8192 {
            mark(&mut self.first, variables, block);
        } else if at < 16384 {
            mark(&mut self.second, variables, block);
        } else if at < 24576 {
            mark(&mut self.third, variables, block);
        } else {
            mark(&mut self.fourth, variables, block);
        }
    }

    fn enter_place(&mut self, at: usize, variables: Set) {
        let place = words::single(at % 64);
        if at / 64 % 2 == 0 {
            mark(&mut self.even, variables, place);
        } else {
            mark(&mut self.odd, variables, place);
        }
    }

    // The blocks that have readers of variable v.
    pub fn blocks(&self, v: u8) -> Set {
        let i = usize::from(v);
        Set {
            a: self.first[i],
            b: self.second[i],
            c: self.third[i],
            d: self.fourth[i],
        }
    }

    // At which places of the first half of a block, and of the second.
    pub fn even(&self, v: u8) -> u64 {
        self.even[usize::from(v)]
    }

    pub fn odd(&self, v: u8) -> u64 {
        self.odd[usize::from(v)]
    }
}
