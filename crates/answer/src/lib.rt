// The answer of an operation, the one word in which the C interface hands it over, and the line that a program prints of it.
#![tactic(auto)]

ghost use Rattle.std.specs.Prelude.{◌≡◌, Some, decimal};
ghost use Rattle.answer.specs.Outcome.{refused, packed, Ranged};
ghost use Rattle.answer.specs.Answer.{number_of, outcome_of};
ghost use Rattle.answer.specs.Line.{line};

use std::fmt;

// Why an operation says no (document 01, "What each operation says no to", and document 02). 11 is an answer of its own, `Answer::Holds`.
#[derive(Clone, Copy, PartialEq, Eq)]
pub enum Refusal {
    UnknownKind = 1,
    RecordCutShort = 2,
    // A variable byte.
    BadVariable = 3,
    // A label or scope.
    BadLabel = 4,
    // A name, key, mask, type or flag.
    BadValue = 5,
    DeclaredTwice = 6,
    // A function label has no function record.
    FunctionMissing = 7,
    TableTooShort = 8,
    FileTooLong = 9,
    // One use of all rules would enlarge a row of the given table.
    TableNotClosed = 10,
    // Req 05: the lent buffer has fewer words than the listing.
    BufferTooShort = 12,
    // Req 10
    BadLoan = 13,
    // Req 11: a fourth record of kind 13.
    TooManyGuests = 14,
    // Req 12: more than 12 records of kind 6.
    TooManyGrants = 15,
    // Req 14: what stands behind the old file may not be added to it.
    NotAddable = 16,
}

impl Refusal {
    // The papers' number.
    pub fn number(self) -> u8
        ensures { result ≡ number_of self }
    {
        self as u8
    }
}

impl fmt::Display for Refusal {
    ghost output = { λ why. Some (decimal (number_of why)) };

    fn fmt<W: fmt::Write>(&self, f: &mut fmt::Formatter<W>) -> fmt::Result {
        write!(f, "{}", self.number())
    }
}

#[derive(Clone, Copy)]
pub enum Answer {
    // The number of facts.
    Confined(u32),
    // The lowest forbidden label held, the label of the guest that holds it, and the number of facts.
    Leaks(u8, u8, u32),
    // A count, 0 for the check.
    Accepted(u32),
    // The refusal and its position.
    Refused(Refusal, usize),
    // Refusal 11: the lowest forbidden label held, and the label of the guest that holds it.
    Holds(u8, u8),
    // Which grants to withdraw, a bit for each.
    Choice(u16),
    // No withdrawal of grants helps.
    NoneHelps,
}

// The line that a program prints of it, without the labels in the guest's bag.
impl fmt::Display for Answer {
    ghost output = { λ a. Some (line (outcome_of a)) };

    fn fmt<W: fmt::Write>(&self, f: &mut fmt::Formatter<W>) -> fmt::Result {
        match self {
            Answer::Confined(count) => write!(f, "confined {count}"),
            Answer::Leaks(label, _, count) => write!(f, "leaks {label} {count}"),
            Answer::Accepted(_) => write!(f, "accepted"),
            Answer::Refused(why, position) => write!(f, "refused {why} {position}"),
            Answer::Holds(label, _) => write!(f, "refused 11 {label}"),
            Answer::Choice(word) => write!(f, "choice {word}"),
            Answer::NoneHelps => write!(f, "none helps"),
        }
    }
}

// A refusal as one word. 16 has no room in the four bits that the others have for their number.
fn pack_refusal(why: Refusal, position: usize) -> u64
    requires { Ranged (refused (number_of why) position) }
    ensures { result ≡ packed (refused (number_of why) position) }
{
    match why {
        Refusal::NotAddable => (3 << 4) + ((position as u64) << 8),
        _ => u64::from(why.number()) + ((position as u64) << 4),
    }
}

// The answer as one word.
pub fn pack(a: Answer) -> u64
    requires { Ranged (outcome_of a) }
    ensures { result ≡ packed (outcome_of a) }
{
    match a {
        Answer::Confined(count) => u64::from(count) << 32,
        Answer::Leaks(label, guest, count) => {
            (1 << 4) + (u64::from(label) << 8) + (u64::from(guest) << 17) + (u64::from(count) << 32)
        }
        Answer::Accepted(count) => (2 << 4) + (u64::from(count) << 32),
        Answer::Refused(why, position) => pack_refusal(why, position),
        Answer::Holds(label, guest) => 11 + (u64::from(label) << 4) + (u64::from(guest) << 17),
        Answer::Choice(word) => (4 << 4) + (u64::from(word) << 8),
        Answer::NoneHelps => 5 << 4,
    }
}
