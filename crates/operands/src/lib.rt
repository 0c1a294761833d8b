// The type of an operand of the comparison that a condition is, under one target of a list.
#![tactic(auto)]

mod run;
mod text;

pub use run::operand_type;

// An operand of a comparison.
#[derive(Clone, Copy)]
pub enum Operand {
    Left,
    Right,
}

// What is answered of an operand: its type is written, in so many bytes; it has no type; or the
// condition is no comparison.
#[derive(Clone, Copy)]
pub enum Answer {
    Written(usize),
    Untyped,
    NoComparison,
}
