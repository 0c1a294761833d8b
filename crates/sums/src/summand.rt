// The report of one Sum, by the annotation of the binder of its summand's name (`sum_summand_type_error`).
ghost use Rattle.std.specs.Prelude.{◌≡◌, true, ◌||◌, ◌++◌, ◌≤◌, length};
ghost use Rattle.std.proofs.Math.Option.{some};
ghost use Rattle.names.specs.Names.{same};
ghost use Rattle.names.specs.Read.{word_at};
ghost use Rattle.names.specs.Text.{text};
ghost use Rattle.condition.specs.Condition.{path};
ghost use Rattle.walk.specs.Enclosing.{binding_in};
ghost use Rattle.nodes.specs.Kinds.{aggregate_kind_of};
ghost use Rattle.condition.specs.Places.{is_aggregate, aggregate_in};
ghost use Rattle.nodes.specs.Parts.{segments_in, SegmentsHere, bound_in, BoundStands, BoundBy};
ghost use Rattle.condition.specs.Walk.{declared_by, last_named};
ghost use Rattle.messages.specs.Words.{said_breaches, SaidStands, Tells, span_in};
ghost use Rattle.reports.specs.Sink.{sink, Sound, Appended};
ghost use Rattle.sums.specs.Summands.{SummandIs, binders_at};
ghost use Rattle.sums.specs.Sums.{summand_breach, summand_binders, aggregate_breaches};

use crate::Place;
use condition::ConditionRecord;
use messages::{Sentence, Word, say};
use nodes::{Bound, Ends, SlotAt};
use reports::{Message, State};
use walk::Binding;

#[tactic(auto, using(crate::proofs::Judging::decimals))]
fn is_decimal(word: &[u8]) -> bool
    ensures { result ≡ (same word.now (text "decimal") || same word.now (text "Decimal")) }
{
    if names::same(word, b"decimal") {
        return true;
    }
    names::same(word, b"Decimal")
}

// A summand that is declared by a path: its last segment says the type. Its name stands at `name`.
fn by_path(condition: ConditionRecord<'_>, segments: usize, name: usize) -> Option<Sentence>
    requires { SegmentsHere condition.bytes.now segments }
    ensures { Tells condition.entry.bytes.now condition.entry.bytes.now (summand_breach (word_at condition.entry.bytes.now name) (some (path (segments_in condition.entry.bytes.now segments)))) result }
{
    let s = condition.bytes;
    let word = Word::Name(name);
    let none = Word::Nothing;
    let last = names::word(s, nodes::last_segment(s, segments));
    if names::same(last, b"Long") {
        return None;
    }
    if is_decimal(last) {
        return say(Message::CannotSumDecimal, word, word, none, none);
    }
    say(Message::CannotSum, word, word, Word::Joined(segments), none)
}

// A summand, by what its name is bound to; a name that nothing binds is passed.
fn by_bound(condition: ConditionRecord<'_>, bound: Bound, name: usize) -> Option<Sentence>
    requires { BoundStands condition.bytes.now bound }
    ensures { Tells condition.entry.bytes.now condition.entry.bytes.now (summand_breach (word_at condition.entry.bytes.now name) (bound_in condition.entry.bytes.now bound)) result }
{
    let word = Word::Name(name);
    let none = Word::Nothing;
    match bound {
        Bound::Segments(p) => by_path(condition, p, name),
        Bound::Timepoint => say(Message::CannotSumTimepoint, word, word, none, none),
        Bound::Nothing => None,
    }
}

// What is said, at a span: it is measured first, then written straight to the buffer.
#[tactic(auto, using(crate::proofs::Judging::appending))]
fn append(buf: &mut [u8], state: State, s: &[u8], span: Ends, said: Option<Sentence>) -> State
    requires sound { Sound (sink buf.old state) }
    requires said_stands { SaidStands s.now s.now said }
    ensures { Appended buf.old state (said_breaches s.now s.now said (span_in span)) buf.new result }
{
    let Some(message) = said else {
        return state;
    };
    let long = messages::message_size(s, s, message);
    if reports::has_room(buf, state, long) {
        let at = reports::put_header(buf, state, span.start, span.end, long);
        let next = messages::put_message(buf, at, s, s, message);
        return reports::one_more(state, next);
    }
    reports::stopped(state)
}

// The slot of a Sum's summand.
#[tactic(auto, using(crate::proofs::Judging::summands))]
fn summand(s: &[u8], at: usize) -> SlotAt
    requires at_value { is_aggregate s.now at ≡ true }
    requires at_value_2 { aggregate_kind_of (aggregate_in s.now at) ≡ 1 }
    ensures { SummandIs s.now at result }
{
    nodes::slot_at(s, nodes::aggregate_part(s, at))
}

// Where a binder covers its own body: the last binder of a name in the aggregate's own list, else the innermost one around the aggregate.
fn own_bound(place: Place<'_>, at: usize, name: &[u8]) -> Bound
    requires at_value { is_aggregate place.condition.bytes.now at ≡ true }
    requires fact { aggregate_kind_of (aggregate_in place.condition.bytes.now at) ≡ 3 → ⊥ }
    ensures { BoundBy place.entry.condition.bytes.now (last_named name.now (binders_at place.entry ++ declared_by (aggregate_in place.entry.condition.bytes.now at))) result }
{
    let s = place.condition.bytes;
    let listed = walk::bound_among(s, nodes::binders_at(s, at), name);
    match listed {
        Bound::Nothing => around(place, name),
        _ => listed,
    }
}

// What binds a name at a place.
fn around(place: Place<'_>, name: &[u8]) -> Bound
    ensures { BoundBy place.entry.condition.bytes.now (last_named name.now (binders_at place.entry)) result }
{
    let s = place.condition.bytes;
    walk::bound_by(place.binding, s, place.env, place.node, name)
}

// What binds the name of the summand of the Sum at `at`.
// The choice is matched, as in `walk`: the flat way asks nothing of the Sum at `at`.
fn summand_bound(place: Place<'_>, at: usize, name: &[u8]) -> Bound
    requires at_value { is_aggregate place.condition.bytes.now at ≡ true }
    requires fact { aggregate_kind_of (aggregate_in place.condition.bytes.now at) ≡ 3 → ⊥ }
    ensures { BoundBy place.entry.condition.bytes.now (last_named name.now (summand_binders (binding_in place.entry.binding) (binders_at place.entry) (declared_by (aggregate_in place.entry.condition.bytes.now at)))) result }
{
    match place.binding {
        Binding::Flat => around(place, name),
        Binding::Own => own_bound(place, at, name),
    }
}

// The Sum whose own kind byte stands at `at`; a summand that is a macro's parameter or binder is passed.
pub fn in_sum(place: Place<'_>, at: usize, buf: &mut [u8], state: State) -> State
    requires at_value { is_aggregate place.condition.bytes.now at ≡ true }
    requires at_value_2 { aggregate_kind_of (aggregate_in place.condition.bytes.now at) ≡ 1 }
    requires sound { Sound (sink buf.old state) }
    ensures { Appended buf.old state (aggregate_breaches (binding_in place.entry.binding) (binders_at place.entry) (aggregate_in place.entry.condition.bytes.now at)) buf.new result }
{
    let s = place.condition.bytes;
    let SlotAt::Named(name) = summand(s, at) else {
        return state;
    };
    let bound = summand_bound(place, at, names::word(s, name));
    let span = nodes::aggregate_span_at(s, at);
    append(buf, state, s, span, by_bound(place.condition, bound, name))
}
