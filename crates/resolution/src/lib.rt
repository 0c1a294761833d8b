// Attribute paths, and what a rule's scope admits. A segment of a path, and a name, is the position of its length byte.
#![tactic(auto)]

mod all;
mod along;
mod candidates;
mod entity;
mod listing;
mod ordering;
mod path;
mod predicates;
mod scope;

pub use all::{resolve_scope_path, scope_number};
pub use along::{context_path, context_type, resolve_in, split_first};
pub use candidates::{Candidates, Scope};
pub use entity::resolve_one;
pub use listing::next_failing;
use names::Row;
pub use ordering::next_rendering;
pub use path::{Headed, Path};
pub use predicates::predicate_action;
pub use scope::{admits, admits_any_env, next_admitted, scope_type};
use types::Rich;

// A type, where there is one. That it is small is a fact beside it in the contracts: the bytes that
// hold its tag do not stand in the type, so no field of it could say how long the tag is. A struct
// of the type and the bytes would repeat both records at each type, and a function that compares
// two types would have to ask that they are of the same records.
pub type Typed = Option<Rich>;

// Why a path into a record has no type: its first segment is no attribute; another one is none of
// its record, or is looked for in what is no record.
#[derive(Clone, Copy)]
pub enum Unresolved {
    HeadMissing,
    NestedMissing(usize),
    NonRecord(usize),
}

// How a path into a record ends.
pub type PathResolution = Result<Rich, Unresolved>;

// Why a path has no type on one entity type: a segment is no attribute of its record, or is looked
// for in what is no record.
#[derive(Clone, Copy)]
pub enum Failure {
    Missing(usize),
    NonRecord(usize),
}

// How a path ends on one entity type.
pub type PathEnd = Result<Rich, Failure>;

// How a path ends over all the entity types that a scope admits: one of document 01's five answers,
// so that it is no Result. What it lists beside, passes give: the entity types of `Missing`, the
// types of `Ambiguous`.
#[derive(Clone, Copy)]
pub enum ScopePath {
    Resolved(Rich),
    Missing(usize),
    NonRecord(usize),
    Ambiguous,
    Unknown,
}

// What a pass over a row of names finds next, if there is one: where the name stands, and the names
// behind it. A pass is no iterator, which would keep the row and hide it, since the contracts say
// of the names behind what a pass has still before it.
pub type Next = Option<(usize, Row)>;

// The same, with the row of entity types from which the next search for one begins.
pub type NextNear = Option<(usize, Row, Row)>;
