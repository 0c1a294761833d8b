// The typing rules: what one reached node of a condition breaks, under the facts of a target.
//
// | module | what it has |
// |---|---|
// | judge | types in, a finding out, or none |
// | report | a finding into the buffer: its message composed, compared with earlier ones, copied |
// | arithmetic | the leaves of an operand that is arithmetic |
// | predicate | the arguments of a predicate |
// | kinds | `node(..)`: what a reached node breaks, by its kind |
//
// What a function puts reports into is handed on as three parameters, the lent buffer, the lent
// table and the state, under one clause `Lent`. They are no struct: a struct that keeps `&mut
// buf` and `&mut table` needs in each function two clauses more, that its references are the ones
// that it had, for the one clause that would go.
//
// What stands at a place of the condition (`is_condition`, `is_term`) is asked as in `nodes`, whose
// heading says why.
#![tactic(auto)]

mod arithmetic;
mod judge;
mod kinds;
mod predicate;
mod report;

pub use kinds::node;
use nodes::Ends;
use types::Rich;

// A breach that a judgement finds, with the types and the places of the names that its message
// quotes. Where it finds none it answers none.
#[derive(Clone, Copy)]
pub enum Finding {
    // inside arithmetic
    Wildcard,
    NotLong(Rich),
    // the operands of a comparison
    NotNumeric(Rich, Rich),
    Unlike(Rich, Rich),
    // the name of a `tp`, and its type
    WrongTimepoint(usize, Rich),
    // the names of an argument and of its action, the type that its field has, and its own
    WrongArgument(usize, usize, Rich, Rich),
}

// What was found at a node, if anything, and the span at which it is reported.
#[derive(Clone, Copy)]
pub struct Judged {
    pub span: Ends,
    pub finding: Option<Finding>,
}

// A comparison: where its breaches are reported, whether its operator orders, and where its
// operands stand. Whether it orders is a yes or no of its own: no value stands beside it that
// there would be in one case only.
#[derive(Clone, Copy)]
pub struct Compared {
    pub span: Ends,
    pub ordering: bool,
    pub left: usize,
    pub right: usize,
}

// An operand of a comparison, or a part of one: where it stands, and where its breaches are
// reported.
#[derive(Clone, Copy)]
pub struct Operand {
    pub span: Ends,
    pub at: usize,
}

// A predicate: where its breaches are reported, where the name of its action stands, where that is
// declared, how many arguments there are, and where the first stands.
#[derive(Clone, Copy)]
pub struct Applied {
    pub span: Ends,
    pub name: usize,
    pub action: Option<usize>,
    pub count: usize,
    pub first: usize,
}
