// The facts of a target, and the types that terms have under them.
//
// What stands at a place (`is_term`, `is_path`, `found_stands` of an action) is asked as in
// `nodes`, whose heading says why.
#![tactic(auto)]

mod env;
mod literals;
mod scope;
mod setting;
mod target;
mod term;

pub use env::var_type;
use names::Row;
use resolution::Typed;
pub use setting::Setting;
pub use target::{at_node, facts_of};
use targets::Narrowed;
pub use term::{context_field_type, term_type};
use types::{Profile, Rich};
use walk::Binding;

// What all targets of a check have in common: where the schema's actions stand, which is found once, and what the caller chose: the profile, and how names are bound.
#[derive(Clone, Copy)]
pub struct Common {
    pub actions: Row,
    pub profile: Profile,
    pub binding: Binding,
}

// What a condition is checked under, beside the bytes: where the target's action stands, if it is declared, what the scope says of each side, what all targets
// have in common, and at which reached condition, by its number in walk order.
#[derive(Clone, Copy)]
pub struct Facts {
    pub action: Option<usize>,
    pub principal: Narrowed,
    pub resource: Narrowed,
    pub common: Common,
    pub node: usize,
}

// A term's type, and the place behind the term.
#[derive(Clone, Copy)]
pub struct Element {
    pub typed: Typed,
    pub next: usize,
}

// The elements of an array seen so far: none, all of one type, or mixed.
#[derive(Clone, Copy)]
pub enum Seen {
    Empty,
    Like(Rich),
    Mixed,
}
