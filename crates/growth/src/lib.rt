// What grew, and the rounds over it. What a use of a record wrote is noted at once (`written`): variables that hold something new to their readers, and
// properties. When a round is over, `rounds` begins the next one with all that grew since (`grown`, by the sizes of rows: `sizes`). Nothing is promised of the
// notes: what they miss costs time, since a whole pass finds it.

#![tactic(auto)]

mod grown;
pub mod rounds;
pub mod sizes;
pub mod written;
