// Array literals. An element is typed without environment and action, once, together with the place behind it.
//
// The bytes of the two records stay two parameters, as `types` takes them: nothing is asked of the
// two together that a struct would keep.
ghost use Rattle.std.specs.Prelude.{◌≡◌, true, false, ◌+◌, ◌≤◌, ◌<◌, length, get_or};
ghost use Rattle.std.proofs.Math.Option.{none, some};
ghost use Rattle.names.specs.Fields.{levels};
ghost use Rattle.names.specs.Read.{accepted};
ghost use Rattle.condition.specs.Condition.{term_at};
ghost use Rattle.nodes.specs.Kinds.{term_kind_of, term_kind_number};
ghost use Rattle.condition.specs.Places.{version_in, term_here, is_term, term_in};
ghost use Rattle.terms.specs.Terms.{term_type, element_types, array_of};
ghost use Rattle.terms.specs.Bounds.{layers_of};
ghost use Rattle.terms.specs.Literals.{kind_type, seen_with, seen_type, array_rich, EntityTag, LeafTyped, TypedAt, list_at, list_in};

use crate::{Element, Seen};
use nodes::TermKind;
use resolution::Typed;
use types::{Base, Rich, Scalar, Source, Tag};

// The type of a term by its kind alone.
fn kind_type(kind: TermKind) -> Typed
    ensures { result ≡ kind_type (term_kind_number kind) }
{
    match kind {
        TermKind::Integer | TermKind::Aggregate | TermKind::Arith => Some(Rich::from(Scalar::Long)),
        TermKind::Decimal => Some(Rich::from(Scalar::Decimal)),
        TermKind::String => Some(Rich::from(Scalar::String)),
        TermKind::Bool => Some(Rich::from(Scalar::Bool)),
        _ => None,
    }
}

// One element more: the first decides, and an element without a type or of another one makes the array mixed.
// It is not inlined: its types would lie on the stack once for each level of an array, and lie
// there once.
#[inline(never)]
#[tactic(auto, using(crate::proofs::Arrays::joining))]
fn seen_with<'a>(schema: &'a [u8], condition: &'a [u8], seen: Seen, typed: Typed) -> Seen
    ensures { result ≡ seen_with schema.now condition.now seen typed }
{
    let Some(t) = typed else {
        return Seen::Mixed;
    };
    match seen {
        Seen::Empty => Seen::Like(t),
        Seen::Like(u) => alike(schema, condition, u, t),
        Seen::Mixed => Seen::Mixed,
    }
}

#[tactic(auto, using(crate::proofs::Arrays::joining))]
fn alike<'a>(schema: &'a [u8], condition: &'a [u8], first: Rich, other: Rich) -> Seen
    ensures { result ≡ seen_with schema.now condition.now (Seen.Like first) (Some other) }
{
    if types::equal(schema, condition, other, first) {
        return Seen::Like(first);
    }
    Seen::Mixed
}

// The array's type.
fn array_of(seen: Seen) -> Rich
    requires { layers_of (seen_type seen) < 32 }
    ensures { result ≡ array_rich seen }
{
    match seen {
        Seen::Empty => Rich::from(Base::AnyArray),
        Seen::Like(t) => one_layer(t),
        Seen::Mixed => Rich::from(Base::MixedArray),
    }
}

fn one_layer(t: Rich) -> Rich
    requires { t.layers < 32 }
    ensures { result ≡ array_rich (Seen.Like t) }
{
    Rich {
        layers: t.layers + 1,
        ..t
    }
}

// The tag of an entity whose type name stands at `at`.
fn entity_tag(condition: &[u8], at: usize) -> Tag
    requires at_in_bounds { at + 1 + get_or condition.now at 0 ≤ length condition.now }
    requires at_in_bounds_2 { at + 1 ≤ length condition.now }
    ensures { EntityTag condition.now at result }
{
    let own = schema::tag_at(condition, at);
    Tag {
        source: Source::Condition,
        at: own.at,
        len: own.len,
    }
}

// The type that a term which is no array has without facts.
fn leaf_type(condition: &[u8], at: usize) -> Typed
    requires at_value { is_term condition.now at ≡ true }
    requires fact { term_kind_of (term_in condition.now at) ≡ 10 → ⊥ }
    ensures { LeafTyped condition.now at result }
{
    match nodes::term_kind_at(condition, at) {
        TermKind::Entity => {
            let tag = entity_tag(condition, nodes::term_part(condition, at));
            Some(Rich::from(Base::Tagged(tag)))
        }
        kind => kind_type(kind),
    }
}

// The type that the term at `at` has without facts, and the place behind it, with so many levels left.
#[cycle(array_type_element_type)]
pub fn element_type<'a>(schema: &'a [u8], condition: &'a [u8], at: usize, left: usize) -> Element
    requires left_bound { left ≤ 32 }
    requires at_value { accepted (term_at (version_in condition.now) left false condition.now at) ≡ true }
    ensures { TypedAt schema.now condition.now (term_here condition.now at) (term_type none (term_in condition.now at)) left result }
{
    let TermKind::Array = nodes::term_kind_at(condition, at) else {
        return Element {
            typed: leaf_type(condition, at),
            next: nodes::past_term(condition, at),
        };
    };
    let elements = nodes::term_part(condition, at);
    array_type(schema, condition, elements, left - 1)
}

// The array whose count of elements stands at `start`.
#[cycle(array_type_element_type)]
fn array_type<'a>(schema: &'a [u8], condition: &'a [u8], start: usize, left: usize) -> Element
    requires left_bound { left < 32 }
    requires start_in_bounds { start < length condition.now }
    requires start_value { accepted (list_at left condition.now start) ≡ true }
    ensures { TypedAt schema.now condition.now (list_at left condition.now start) (some (array_of (element_types (list_in left condition.now start)))) (left + 1) result }
{
    let mut at = start + 1;
    let mut seen = Seen::Empty;
    for _ in 0..names::byte_at(condition, start) {
        let element = element_type(schema, condition, at, left);
        seen = seen_with(schema, condition, seen, element.typed);
        at = element.next;
    }
    Element {
        typed: Some(array_of(seen)),
        next: at,
    }
}
