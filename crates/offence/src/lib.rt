// Where a record is refused: the number and the place, for each of the four records by one contract.
//
// The place is said of the proved readers alone: it is the fewest first bytes of a record that already show the offence, `place` of `specs/Offence`.
#![tactic(auto)]

mod find;

pub use find::{has_mark, kind_of, number_of, place_of};

// The four records, by document 01's numbers.
#[derive(Clone, Copy, PartialEq, Eq)]
pub enum Kind {
    Schema = 1,
    Condition = 2,
    Targets = 3,
    Path = 4,
}
