// A node of a condition or a term taken apart: its kind, and where its parts stand.
//
// `s` is an accepted record; a position `at` denotes a condition (`condition_in`), a term
// (`term_in`), .. of `condition`'s `specs/Places`, and `is..` says that one stands there.
// `specs/Kinds` has document 01's numbers of the kinds. What a function tells of its answer is the
// record of `specs/Looked` or `specs/Parts` beside it. This crate alone knows at which byte of a
// node its parts stand: `first_part`, `term_part`, `left_part`, `aggregate_part`, of which the laws
// of `specs/Laws/Inside` say what is there.
//
// A node is the bytes of the record and the number of its place in them, and each function asks
// that one stands there. The two are no struct: a record is lent once, and its nodes are many. The
// tables of `walk` hold places as numbers of 16 bits, which a struct of bytes and place would not
// be; and a function with two places would have to ask that both are places of the same record.
//
// Functions with equal bodies stay apart where each promises of another kind of thing at its place.
//
// | module | what it has |
// |---|---|
// | offsets | where the first part of a node stands |
// | parts | kinds, spans and parts of conditions, terms, aggregates, slots, paths and annotations |
// | windows | `window_at`: the window of a Formerly, a Previous, a Since; and how many bytes it takes |
// | aggregates | `next_aggregate(s, count, first)`: `NextIs` of `aggregates_in s count first` |
// | leaves | `next_leaf(s, count, first)`: `NextLeafIs` of `leaves_in s count first` |
#![tactic(auto)]

ghost use Rattle.std.specs.Prelude.{◌≡◌};
ghost use Rattle.nodes.specs.Kinds.{term_kind_number, read_kind_number, told_apart};

mod aggregates;
mod leaves;
mod offsets;
mod parts;
mod windows;

pub use aggregates::{next_aggregate, operands_at};
pub use condition::{AggregateKind, Kind};
pub use leaves::next_leaf;
pub use offsets::{aggregate_part, first_part, left_part, term_part};
pub use parts::{
    aggregate_kind_at, aggregate_span_at, argument_at, arith_at, binders_at, body_at, bound_at,
    comparison_at, elements_at, has_one, has_two, is_named, kind_at, last_segment, name_of,
    own_span_at, past_binder, past_condition, past_element, past_slot, past_term, path_at,
    predicate_at, segments_at, slot_at, span_at, term_kind_at,
};
pub use windows::window_at;

// Where a condition record's own condition stands, behind the mark and the version.
pub const ROOT: usize = 5;

// The kinds of conditions and of aggregates are those of `condition`, and `kind_at` answers no
// SigilRef. Those of terms are not: `condition` has one for each byte, and here the two sigils, a
// ParamRef and a BinderRef, are one kind, as they are in the tree.
#[derive(Clone, Copy, PartialEq)]
pub enum TermKind {
    Entity,
    Integer,
    Decimal,
    String,
    Bool,
    ContextField,
    ScopeField,
    Var,
    Wildcard,
    Array,
    Aggregate,
    Arith,
    Sigil,
}

impl From<condition::TermKind> for TermKind {
    ghost from_gives = { λ read kind. term_kind_number kind ≡ told_apart (read_kind_number read) };

    fn from(read: condition::TermKind) -> TermKind {
        match read {
            condition::TermKind::Entity => TermKind::Entity,
            condition::TermKind::Integer => TermKind::Integer,
            condition::TermKind::Decimal => TermKind::Decimal,
            condition::TermKind::String => TermKind::String,
            condition::TermKind::Bool => TermKind::Bool,
            condition::TermKind::ContextField => TermKind::ContextField,
            condition::TermKind::ScopeField => TermKind::ScopeField,
            condition::TermKind::Var => TermKind::Var,
            condition::TermKind::Wildcard => TermKind::Wildcard,
            condition::TermKind::Array => TermKind::Array,
            condition::TermKind::Aggregate => TermKind::Aggregate,
            condition::TermKind::Arith => TermKind::Arith,
            condition::TermKind::ParamRef | condition::TermKind::BinderRef => TermKind::Sigil,
        }
    }
}

// The ends of a span.
#[derive(Clone, Copy)]
pub struct Ends {
    pub start: u32,
    pub end: u32,
}

// A comparison: its operator's number, and where its operands stand. The operator stays document
// 01's number: all that is asked of it is whether it orders, which it does below 4.
#[derive(Clone, Copy)]
pub struct ComparisonAt {
    pub operator: u8,
    pub left: usize,
    pub right: usize,
}

// Where the operands of an arithmetic stand.
#[derive(Clone, Copy)]
pub struct Operands {
    pub left: usize,
    pub right: usize,
}

// A predicate: how many path names its namespace has and where the first stands, where its action
// stands, how many arguments it has and where the first stands.
#[derive(Clone, Copy)]
pub struct PredicateAt {
    pub names: usize,
    pub namespace: usize,
    pub action: usize,
    pub count: usize,
    pub first: usize,
}

// An argument, whose name stands at its own place: where its field path and its term stand, and the
// place behind it.
#[derive(Clone, Copy)]
pub struct ArgumentAt {
    pub field: usize,
    pub term: usize,
    pub next: usize,
}

// So many things, one after another from a place on.
#[derive(Clone, Copy)]
pub struct Several {
    pub count: usize,
    pub first: usize,
}

// A slot: the place of its name, or a macro's parameter or binder.
#[derive(Clone, Copy)]
pub enum SlotAt {
    Named(usize),
    ParamRef,
    BinderRef,
}

// The window of a condition: none is said, or a macro's parameter, or so many seconds.
#[derive(Clone, Copy)]
pub enum WindowAt {
    Unsaid,
    Parameter,
    Seconds(u64),
}

// The annotation of the last binder of a name: where its segments stand, a timepoint, or there is
// no such binder. `Nothing` is a case, and no Option stands around the others, since `sums` and
// `terms` match the three side by side.
#[derive(Clone, Copy)]
pub enum Bound {
    Segments(usize),
    Timepoint,
    Nothing,
}

// The next part of some terms in a row, an aggregate or a leaf: where it stands, and the terms that
// the others are in; if there is one.
pub type NextPart = Option<(usize, Several)>;
