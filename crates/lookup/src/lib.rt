// The lookup of a scope path for one target of a list.
//
// A buffer and the place in it stay two parameters, of which each function asks for room: a struct
// that keeps the `&mut` needs in each function a clause that its reference is the one that it had.
//
// Measuring and writing are two walks and no one with a closure: what is written asks for the room
// that was measured, and the buffer is lent to the second alone.
#![tactic(auto)]

mod ambiguous;
mod entry;
mod missing;
mod place;
mod question;
mod strings;

pub use entry::lookup;
pub use question::Question;

// How many strings an output has, and how many bytes they take with their lengths.
#[derive(Clone, Copy)]
pub struct Measured {
    pub count: usize,
    pub size: usize,
}
