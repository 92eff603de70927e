// What the search names, and where it has it from.

// A record, by its place in the file, or the lines: the P line and the guest's rules, which no record says.
#[derive(Clone, Copy)]
pub enum Position {
    Record(usize),
    Lines,
}

// The lines among the 16 bits of positions in queues and links, whose arrays would be too long with positions as they are.
const LINES: u16 = 65535;

impl Position {
    // Its 16 bits.
    pub fn code(self) -> u16 {
        match self {
            Position::Record(at) => (at % 65536) as u16,
            Position::Lines => LINES,
        }
    }

    // The position of these 16 bits.
    pub fn of(code: u16) -> Position {
        if code == LINES {
            Position::Lines
        } else {
            Position::Record(usize::from(code))
        }
    }
}

// Where a position comes from: the queue, the readers of a variable that grew, the scan of a round.
#[derive(Clone, Copy, PartialEq, Eq)]
pub enum Source {
    Queue,
    Readers,
    Round,
}

// The next position to use.
#[derive(Clone, Copy)]
pub struct Found {
    pub position: Position,
    pub source: Source,
}
