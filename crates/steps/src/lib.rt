// The stepping check: one target at each step, others appended or withdrawn between steps. Nothing is kept here: the caller hands the records, the state and the
// buffer in each time, and every value of every field means something.
//
// The buffer and the workspace are handed on with the records and the state, each by itself: a
// struct of the two would hold two `&mut`, and each function that takes it would have to promise
// that both are still the references that were lent.
#![tactic(auto)]

mod list;
mod moved;
mod positions;
mod run;
mod state;

pub use list::{append, withdraw};
pub use moved::to_own_bodies;
pub use run::{start, step};
use typecheck::CheckAnswer;

// What the marks of a state say. They are constants and no enum, since a mark that a caller hands
// in may be any byte.
const PENDING: u8 = 0;

const DONE: u8 = 1;

const WITHDRAWN: u8 = 2;

// What the records and the buffer do not say: the caller's rules; 0, or that a report did not fit; a mark for each of 256 positions, 0 pending, 1 done, 2
// withdrawn, any other also not pending; how many bytes of the buffer are used; how many visits were begun.
// It crosses the C interface in both directions, so it has a number where another struct would have
// an enum or a bool, and a byte for each position in place of a list: a caller may put any number
// there, and each of them means something.
#[repr(C)]
#[derive(Clone, Copy)]
pub struct Steps {
    pub rules: u8,
    pub stopped: u8,
    pub marks: [u8; 256],
    pub used: usize,
    pub visits: u32,
}

// What a call answers, and the state to hand in next. It crosses the C interface, so a refusal is a
// number in the answer, and no Result.
#[repr(C)]
#[derive(Clone, Copy)]
pub struct Stepped {
    pub answer: CheckAnswer,
    pub state: Steps,
}

// A pending target: its position in the list, and where it stands in the record.
#[derive(Clone, Copy)]
pub struct Pending {
    pub position: u8,
    pub at: usize,
}
