// The parts of conditions, terms and aggregates that stand in an accepted record.
//
// | function | asks | tells of its answer (`specs/Looked`, `specs/Parts`) |
// |---|---|---|
// | `kind_at(s, at)` | `is_condition` | `KindHere` of the answer's `kind_number`: `kind_of (condition_in s at)` |
// | `span_at`, `own_span_at` | `is_condition`; 7 | `Spans (span_of ..)`, `Spans (own_span_of ..)` |
// | `comparison_at` | kind 8 | `ComparisonHere`: operator's number, places of both operands, the tree |
// | `predicate_at` | kind 7 | `PredicateHere`: namespace as a `Listed`, action's place, arguments, the tree |
// | `argument_at(s, n, at)` | `is_arguments s n at`, `0 < n` | `ArgumentHere`: field path, term, the rest; `arguments_over` where n is 0 |
// | `term_kind_at(s, at)` | `is_term` | `TermKindHere` of its `term_kind_number`: `term_kind_of (term_in s at)` |
// | `elements_at`, `past_element(s, n, at)` | kind 10; `is_elements s n at`, `0 < n` | `ElementsHere`, `ElementHere`; `elements_over` where n is 0 |
// | `arith_at` | kind 12 | `ArithHere`: the places of both operands |
// | `aggregate_kind_at`, `aggregate_span_at` | `is_aggregate` | `AggregateKindHere` of its `aggregate_kind_number`; `Spans (aggregate_span_of ..)` |
// | `binders_at`, `body_at` | kind not 3 | `BindersHere`, `BodyHere` |
// | `slot_at` | `is_slot` | `SlotHere s at r` |
// | `path_at`, `segments_at` | `is_path`, `SegmentsHere` | `Listed` |
// | `last_segment` | `SegmentsHere` | `word_at s r ≡ last_of (segments_in s at)` |
// | `past_term`, `past_condition`, .. | one stands there | `Skipped`: the place behind it |
ghost use Rattle.std.specs.Prelude.{◌≡◌, true, false, ◌+◌, ◌<◌, ◌≤◌, length, get_or};
ghost use Rattle.std.proofs.Math.Option.{some};
ghost use Rattle.names.specs.Fields.{each, counted, string_of};
ghost use Rattle.names.specs.Names.{plain, path_name, identifier, last_of};
ghost use Rattle.names.specs.Paths.{path_of};
ghost use Rattle.names.specs.Read.{accepted, ending, is_row, row, word_at, Listed};
ghost use Rattle.std.specs.Prelude.{Ok};
ghost use Rattle.condition.specs.Condition.{slot, binder, entity_fields};
ghost use Rattle.condition.specs.Walk.{has_name};
ghost use Rattle.condition.specs.Places.{version_in, condition_here, term_here, is_condition, condition_in, is_term, term_in, is_aggregate, aggregate_in, is_arguments, is_elements, is_path, path_in, is_slot, slot_in, is_annotation, annotation_in, is_binder, binder_in};
ghost use Rattle.nodes.specs.Kinds.{kind_of, span_of, own_span_of, one_kind, two_kind, term_kind_of, aggregate_kind_of, aggregate_span_of, kind_number, term_kind_number, aggregate_kind_number};
ghost use Rattle.nodes.specs.Looked.{place_of, Skipped, KindHere, TermKindHere, AggregateKindHere, BodyHere};
ghost use Rattle.nodes.specs.Parts.{EndsHere, Spans, ComparisonHere, ArithHere, PredicateHere, ArgumentHere, ElementsHere, ElementHere, BindersHere, is_binders, SlotHere, segments_in, SegmentsHere, BoundBy, any_string, strings_at, name_in};

use crate::offsets::{aggregate_part, first_part, left_part, term_part};
use crate::{
    AggregateKind, ArgumentAt, Bound, ComparisonAt, Ends, Kind, Operands, PredicateAt, Several,
    SlotAt, TermKind,
};
use condition::{read_binder, read_binders, read_slot, read_subcondition, read_term};
use names::Read;

// The place behind what was read; `other` where it was refused. Its promise, in the words of
// `Skipped`, serves all that pass a part.
fn place_of(r: Read, other: usize) -> usize
    ensures { result ≡ place_of other r }
{
    r.unwrap_or(other)
}

// The place behind a slot, a binder, binders with their count, path names with theirs, a path, a
// condition, a term.
#[tactic(auto, using(crate::specs::Laws::Opens::passing))]
pub fn past_slot(s: &[u8], at: usize) -> usize
    requires { is_slot s.now at ≡ true }
    ensures { Skipped (slot s.now at) at result }
{
    place_of(read_slot(s, at), at)
}

#[tactic(auto, using(crate::specs::Laws::Opens::passing))]
pub fn past_binder(s: &[u8], at: usize) -> usize
    requires { is_binder s.now at ≡ true }
    ensures { Skipped (binder s.now at) at result }
{
    place_of(read_binder(s, at), at)
}

#[tactic(auto, using(crate::specs::Laws::Opens::passing))]
pub fn past_binders(s: &[u8], at: usize) -> usize
    requires { is_binders s.now at ≡ true }
    ensures { Skipped (counted (each binder) s.now at) at result }
{
    place_of(read_binders(s, at), at)
}

// So many strings of whatever class, one after another, are passed by their lengths.
fn past_words(s: &[u8], words: Several) -> usize
    requires { is_row any_string s.now words.count words.first ≡ true }
    ensures { Ok result ≡ ending (row any_string words.count s.now words.first) }
{
    let mut at = words.first;
    for _ in 0..words.count {
        at = names::past_word(s, at);
    }
    at
}

// Such strings, whose count stands at `at`.
#[tactic(auto, using(crate::proofs::Strings::counted_strings))]
fn past_strings(s: &[u8], at: usize) -> usize
    requires { accepted (strings_at s.now at) ≡ true }
    ensures { Ok result ≡ ending (strings_at s.now at) }
{
    past_words(s, list_at(s, at))
}

#[tactic(auto, using(crate::proofs::Strings::by_strings))]
fn past_names(s: &[u8], at: usize) -> usize
    requires { accepted (counted (each (string_of path_name)) s.now at) ≡ true }
    ensures { Skipped (counted (each (string_of path_name)) s.now at) at result }
{
    past_strings(s, at)
}

#[tactic(auto, using(crate::proofs::Strings::by_strings))]
fn past_path(s: &[u8], at: usize) -> usize
    requires { is_path s.now at ≡ true }
    ensures { Skipped (path_of s.now at) at result }
{
    past_strings(s, at)
}

#[tactic(auto, using(crate::specs::Laws::Opens::passing))]
pub fn past_condition(s: &[u8], at: usize) -> usize
    requires { is_condition s.now at ≡ true }
    ensures { Skipped (condition_here s.now at) at result }
{
    place_of(read_subcondition(s, at, condition::version(s), 32), at)
}

// The place behind an entity's name, and from version 3 on behind its id.
#[tactic(auto, using(crate::proofs::Strings::past_entities))]
fn past_entity(s: &[u8], at: usize) -> usize
    requires { accepted (entity_fields (version_in s.now) s.now at) ≡ true }
    ensures { Skipped (entity_fields (version_in s.now) s.now at) at result }
{
    let name = names::past_word(s, at);
    if condition::version(s) <= 2 {
        return name;
    }
    names::past_word(s, name)
}

#[tactic(auto, using(crate::proofs::Strings::past_terms))]
pub fn past_term(s: &[u8], at: usize) -> usize
    requires { is_term s.now at ≡ true }
    ensures { Skipped (term_here s.now at) at result }
{
    let next = term_part(s, at);
    match term_kind_at(s, at) {
        TermKind::Entity => past_entity(s, next),
        TermKind::ContextField | TermKind::ScopeField => past_path(s, next),
        TermKind::Var => names::past_word(s, next),
        _ => place_of(read_term(s, at, condition::version(s), 32, false), at),
    }
}

// The kind of the condition at `at`. A SigilRef counts as a Call. Here and below the byte at `at`
// is that of a kind, so that the default is never met.
pub fn kind_at(s: &[u8], at: usize) -> Kind
    requires { is_condition s.now at ≡ true }
    ensures { KindHere s.now at (kind_number result) }
{
    match Kind::try_from(s[at]).unwrap_or(Kind::Call) {
        Kind::SigilRef => Kind::Call,
        kind => kind,
    }
}

// The kinds with one condition in them, and those with two. They are asked of any byte, so that
// they take the number and no `Kind`.
pub fn has_one(kind: u8) -> bool
    ensures { result ≡ one_kind kind }
{
    matches!(kind, 3..=5 | 13)
}

pub fn has_two(kind: u8) -> bool
    ensures { result ≡ two_kind kind }
{
    matches!(kind, 1 | 2 | 6)
}

// The kind of the term at `at`.
pub fn term_kind_at(s: &[u8], at: usize) -> TermKind
    requires { is_term s.now at ≡ true }
    ensures { TermKindHere s.now at (term_kind_number result) }
{
    let read = condition::TermKind::try_from(s[at]);
    TermKind::from(read.unwrap_or(condition::TermKind::ParamRef))
}

pub fn aggregate_kind_at(s: &[u8], at: usize) -> AggregateKind
    requires { is_aggregate s.now at ≡ true }
    ensures { AggregateKindHere s.now at (aggregate_kind_number result) }
{
    AggregateKind::try_from(s[at]).unwrap_or(AggregateKind::Call)
}

// Where the body of a Sum or a Count stands.
#[tactic(auto, using(crate::specs::Laws::Pieces::pieces))]
pub fn body_at(s: &[u8], at: usize) -> usize
    requires at_value { is_aggregate s.now at ≡ true }
    requires fact { aggregate_kind_of (aggregate_in s.now at) ≡ 3 → ⊥ }
    ensures { BodyHere s.now at result }
{
    past_binders(s, binders_at(s, at))
}

// Where the count of a Sum's or a Count's binders stands.
#[tactic(auto, using(crate::specs::Laws::Pieces::pieces))]
pub fn binders_at(s: &[u8], at: usize) -> usize
    requires at_value { is_aggregate s.now at ≡ true }
    requires fact { aggregate_kind_of (aggregate_in s.now at) ≡ 3 → ⊥ }
    ensures { BindersHere s.now at result }
{
    let first = aggregate_part(s, at);
    match aggregate_kind_at(s, at) {
        AggregateKind::Sum => past_slot(s, first),
        _ => first,
    }
}

fn ends_at(s: &[u8], at: usize) -> Ends
    requires { at + 8 ≤ length s.now }
    ensures { EndsHere s.now at result }
{
    let start = names::u32_at(s, at);
    let end = names::u32_at(s, at + 4);
    Ends { start, end }
}

// The span of the condition at `at`, a predicate's own span, an aggregate's span.
#[tactic(auto, using(crate::specs::Laws::Pieces::pieces))]
pub fn span_at(s: &[u8], at: usize) -> Ends
    requires { is_condition s.now at ≡ true }
    ensures { Spans (span_of (condition_in s.now at)) result }
{
    ends_at(s, at + 1)
}

#[tactic(auto, using(crate::specs::Laws::Pieces::pieces))]
pub fn own_span_at(s: &[u8], at: usize) -> Ends
    requires at_value { is_condition s.now at ≡ true }
    requires at_value_2 { kind_of (condition_in s.now at) ≡ 7 }
    ensures { Spans (own_span_of (condition_in s.now at)) result }
{
    ends_at(s, at + 9)
}

#[tactic(auto, using(crate::specs::Laws::Pieces::pieces))]
pub fn aggregate_span_at(s: &[u8], at: usize) -> Ends
    requires { is_aggregate s.now at ≡ true }
    ensures { Spans (aggregate_span_of (aggregate_in s.now at)) result }
{
    ends_at(s, at + 1)
}

// The parts of a comparison, of an arithmetic.
#[tactic(auto, using(crate::specs::Laws::Pieces::pieces))]
pub fn comparison_at(s: &[u8], at: usize) -> ComparisonAt
    requires at_value { is_condition s.now at ≡ true }
    requires at_value_2 { kind_of (condition_in s.now at) ≡ 8 }
    ensures { ComparisonHere s.now at result }
{
    let operator = s[at + 9];
    let left = first_part(s, at);
    let right = past_term(s, left);
    ComparisonAt {
        operator,
        left,
        right,
    }
}

#[tactic(auto, using(crate::specs::Laws::Pieces::pieces))]
pub fn arith_at(s: &[u8], at: usize) -> Operands
    requires at_value { is_term s.now at ≡ true }
    requires at_value_2 { term_kind_of (term_in s.now at) ≡ 12 }
    ensures { ArithHere s.now at result }
{
    let left = left_part(s, at);
    let right = past_term(s, left);
    Operands { left, right }
}

// The parts of a predicate, and of the first of so many arguments.
#[tactic(auto, using(crate::specs::Laws::Pieces::predicates_parts))]
pub fn predicate_at(s: &[u8], at: usize) -> PredicateAt
    requires at_value { is_condition s.now at ≡ true }
    requires at_value_2 { kind_of (condition_in s.now at) ≡ 7 }
    ensures { PredicateHere s.now at result }
{
    let namespace = at + 17;
    let names = names::wide(s[namespace]);
    let action = past_names(s, namespace);
    let list = names::past_word(s, action);
    let count = names::wide(s[list]);
    PredicateAt {
        names,
        namespace: namespace + 1,
        action,
        count,
        first: list + 1,
    }
}

#[tactic(auto, using(crate::specs::Laws::Pieces::arguments_parts))]
pub fn argument_at(s: &[u8], count: usize, at: usize) -> ArgumentAt
    requires at_value { is_arguments s.now count at ≡ true }
    requires count_nonzero { 0 < count }
    ensures { ArgumentHere s.now count at result }
{
    let field = names::past_word(s, at);
    let term = past_path(s, field);
    let next = past_term(s, term);
    ArgumentAt { field, term, next }
}

// A list whose count stands at `at`.
fn list_at(s: &[u8], at: usize) -> Several
    requires { at < length s.now }
    ensures count { result.count ≡ get_or s.now at 0 }
    ensures first { result.first ≡ at + 1 }
{
    Several {
        count: names::wide(s[at]),
        first: at + 1,
    }
}

// The elements of an array, and the place behind the first of so many.
pub fn elements_at(s: &[u8], at: usize) -> Several
    requires at_value { is_term s.now at ≡ true }
    requires at_value_2 { term_kind_of (term_in s.now at) ≡ 10 }
    ensures { ElementsHere s.now at result }
{
    list_at(s, term_part(s, at))
}

#[tactic(auto, using(crate::specs::Laws::Pieces::pieces))]
pub fn past_element(s: &[u8], count: usize, at: usize) -> usize
    requires at_value { is_elements s.now count at ≡ true }
    requires count_nonzero { 0 < count }
    ensures { ElementHere s.now count at result }
{
    past_term(s, at)
}

// The strings of a path, the segments of an annotation.
pub fn path_at(s: &[u8], at: usize) -> Several
    requires { is_path s.now at ≡ true }
    ensures { Listed (string_of plain) s.now (path_in s.now at) result.count result.first }
{
    list_at(s, at)
}

pub fn segments_at(s: &[u8], at: usize) -> Several
    requires { SegmentsHere s.now at }
    ensures { Listed (string_of identifier) s.now (segments_in s.now at) result.count result.first }
{
    list_at(s, at)
}

// Where the last segment of an annotation stands.
#[tactic(auto, using(crate::proofs::Strings::last_of_strings))]
pub fn last_segment(s: &[u8], start: usize) -> usize
    requires { SegmentsHere s.now start }
    ensures { word_at s.now result ≡ last_of (segments_in s.now start) }
{
    let mut others = list_at(s, start);
    others.count -= 1;
    past_words(s, others)
}

// A slot: where its name stands, or which sigil it is. The byte is matched and not decoded first:
// `SlotAt` needs the place beside it, and an enum of the bare kinds would be matched a second time
// to get there.
pub fn slot_at(s: &[u8], at: usize) -> SlotAt
    requires { is_slot s.now at ≡ true }
    ensures { SlotHere s.now at result }
{
    match s[at] {
        0 => SlotAt::Named(at + 1),
        1 => SlotAt::ParamRef,
        _ => SlotAt::BinderRef,
    }
}

// What an annotation binds. The byte is the count of the annotation's segments, and 0 of them are a
// timepoint: there is no kind to decode.
#[tactic(auto, using(crate::specs::Laws::Binders::at_binder))]
pub fn bound_at(s: &[u8], at: usize) -> Bound
    requires { is_annotation s.now at ≡ true }
    ensures { BoundBy s.now (some (annotation_in s.now at)) result }
{
    if s[at] == 0 {
        return Bound::Timepoint;
    }
    Bound::Segments(at)
}

// Whether a binder has a name.
pub fn is_named(s: &[u8], at: usize) -> bool
    requires { is_binder s.now at ≡ true }
    ensures { result ≡ has_name (binder_in s.now at).slot }
{
    s[at] == 0
}

// The name of a binder that has one.
#[tactic(auto, using(crate::specs::Laws::Binders::naming))]
pub fn name_of(s: &[u8], at: usize) -> &[u8]
    requires { at < 65536 }
    ensures { result.now ≡ name_in s.now at }
{
    names::word(s, at + 1)
}
