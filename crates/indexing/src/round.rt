// The rounds: over all that grew since the last one, but for what was used at once. The first is over every record.

// So many rounds are too many: the next search looks for calls by variable too, so that ways by calls need no round for each step.
const MANY: u16 = 256;

#[derive(Drop)]
pub struct Round {
    // how many there were, up to MANY
    count: u16,
    // whether the lines are due in this one
    pub lines: bool,
    // whether something grew since it began
    pub grew: bool,
}

impl Round {
    // Before the first.
    pub fn none() -> Round {
        Round {
            count: 0,
            lines: false,
            grew: false,
        }
    }

    // The next one, in which nothing grew so far.
    pub fn begin(&mut self) {
        if self.count < MANY {
            self.count += 1;
        }
        self.grew = false;
    }

    pub fn is_first(&self) -> bool {
        self.count == 1
    }

    // Whether this round, which is over, was the last: nothing grew in it, or it was one too many, where calls are not looked for by variable.
    pub fn is_last(&self, calls: bool) -> bool {
        self.count != 0 && (!self.grew || (self.count == MANY && !calls))
    }
}
