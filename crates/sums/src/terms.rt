// The Sums of a term, of a predicate's arguments, of a reached condition, in reading order.
ghost use Rattle.std.specs.Prelude.{◌≡◌, true};
ghost use Rattle.nodes.specs.Kinds.{kind_of, term_kind_of};
ghost use Rattle.condition.specs.Places.{is_condition, condition_in, is_term, term_in, is_arguments, arguments_in};
ghost use Rattle.walk.specs.Enclosing.{binding_in};
ghost use Rattle.reports.specs.Sink.{sink, Sound, Appended};
ghost use Rattle.sums.specs.Summands.{binders_at};
ghost use Rattle.sums.specs.Sums.{term_breaches, arguments_breaches, condition_breaches};

use crate::Place;
use crate::summand::in_sum;
use nodes::{AggregateKind, Kind, Several, TermKind};
use reports::State;

// A leaf is a Sum, or has none. (An array holds none, and the bodies of aggregates are conditions of their own.)
fn in_leaf(place: Place<'_>, at: usize, buf: &mut [u8], state: State) -> State
    requires at_value { is_term place.condition.bytes.now at ≡ true }
    requires fact { term_kind_of (term_in place.condition.bytes.now at) ≡ 12 → ⊥ }
    requires sound { Sound (sink buf.old state) }
    ensures { Appended buf.old state (term_breaches (binding_in place.entry.binding) (binders_at place.entry) (term_in place.entry.condition.bytes.now at)) buf.new result }
{
    let s = place.condition.bytes;
    let TermKind::Aggregate = nodes::term_kind_at(s, at) else {
        return state;
    };
    let aggregate = nodes::term_part(s, at);
    match nodes::aggregate_kind_at(s, aggregate) {
        AggregateKind::Sum => in_sum(place, aggregate, buf, state),
        _ => state,
    }
}

// The leaves of a term, one after the other: a loop, so that the stack does not grow with the levels of an arithmetic.
fn in_term(place: Place<'_>, at: usize, buf: &mut [u8], state: State) -> State
    requires at_value { is_term place.condition.bytes.now at ≡ true }
    requires sound { Sound (sink buf.old state) }
    ensures { Appended buf.old state (term_breaches (binding_in place.entry.binding) (binders_at place.entry) (term_in place.entry.condition.bytes.now at)) buf.new result }
{
    let s = place.condition.bytes;
    let mut now = state;
    let mut left = Several {
        count: 1,
        first: at,
    };
    while let Some((leaf, others)) = nodes::next_leaf(s, left.count, left.first) {
        now = in_leaf(place, leaf, buf, now);
        left = others;
    }
    now
}

// So many arguments of a predicate, one after the other.
fn in_arguments(place: Place<'_>, arguments: Several, buf: &mut [u8], state: State) -> State
    requires first_value { is_arguments place.condition.bytes.now arguments.count arguments.first ≡ true }
    requires sound { Sound (sink buf.old state) }
    ensures { Appended buf.old state (arguments_breaches (binding_in place.entry.binding) (binders_at place.entry) (arguments_in place.entry.condition.bytes.now arguments.count arguments.first)) buf.new result }
{
    let s = place.condition.bytes;
    let mut now = state;
    let mut at = arguments.first;
    for done in 0..arguments.count {
        let p = nodes::argument_at(s, arguments.count - done, at);
        now = in_term(place, p.term, buf, now);
        at = p.next;
    }
    now
}

// The operands of a comparison.
fn in_comparison(place: Place<'_>, at: usize, buf: &mut [u8], state: State) -> State
    requires at_value { is_condition place.condition.bytes.now at ≡ true }
    requires at_value_2 { kind_of (condition_in place.condition.bytes.now at) ≡ 8 }
    requires sound { Sound (sink buf.old state) }
    ensures { Appended buf.old state (condition_breaches (binding_in place.entry.binding) (binders_at place.entry) (condition_in place.entry.condition.bytes.now at)) buf.new result }
{
    let p = nodes::comparison_at(place.condition.bytes, at);
    let first = in_term(place, p.left, buf, state);
    in_term(place, p.right, buf, first)
}

// One reached condition: a comparison's operands, a predicate's arguments.
pub fn in_condition(place: Place<'_>, at: usize, buf: &mut [u8], state: State) -> State
    requires at_value { is_condition place.condition.bytes.now at ≡ true }
    requires sound { Sound (sink buf.old state) }
    ensures { Appended buf.old state (condition_breaches (binding_in place.entry.binding) (binders_at place.entry) (condition_in place.entry.condition.bytes.now at)) buf.new result }
{
    let s = place.condition.bytes;
    match nodes::kind_at(s, at) {
        Kind::Comparison => in_comparison(place, at, buf, state),
        Kind::Predicate => {
            let p = nodes::predicate_at(s, at);
            let arguments = Several {
                count: p.count,
                first: p.first,
            };
            in_arguments(place, arguments, buf, state)
        }
        _ => state,
    }
}
