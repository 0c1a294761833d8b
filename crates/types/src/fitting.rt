// The tests of two types. They differ in two rules, `is_loose` and `takes_any_tags`.
//
// The schema and the condition are two parameters, as they are of `tag_bytes`, whose form document
// 01 names: a struct of the two would only be taken apart again before it.
//
// `equal`, `accepts` and `compatible` are three names for `fits`: each promises a definition that
// is cited elsewhere.
ghost use Rattle.std.specs.Prelude.{◌≡◌};
ghost use Rattle.std.proofs.Math.Option.{some};
ghost use Rattle.types.specs.Types.{scalar, timepoint, same_type, accepts, compatible};
ghost use Rattle.types.specs.Types.{is_numeric, has_order, are_ordered};
ghost use Rattle.types.specs.Meaning.{scalar_of, profile_in, tag_of, base_of, rich_of};
ghost use Rattle.types.specs.Rules.{any_tags, loose, tags_by, fits_by, unknown_fits};

use crate::tags::tag_bytes;
use crate::{Base, Profile, Rich, Scalar, Tag, Test};
use std::cmp::Ordering;

impl Test {
    // Whether an array of unknown elements stands for any array, and an untagged entity for any.
    fn is_loose(self) -> bool
        ensures { result ≡ loose self }
    {
        !matches!(self, Test::Equal)
    }

    // Whether entities fit whatever their tags.
    fn takes_any_tags(self) -> bool
        ensures { result ≡ any_tags self }
    {
        matches!(self, Test::Compatible(Profile::Plain))
    }
}

fn tags_fit<'a>(schema: &'a [u8], condition: &'a [u8], test: Test, t: Tag, u: Tag) -> bool
    ensures { result ≡ tags_by test (some (tag_of schema.now condition.now t)) (some (tag_of schema.now condition.now u)) }
{
    test.takes_any_tags()
        || names::same(
            tag_bytes(schema, condition, t),
            tag_bytes(schema, condition, u),
        )
}

// Two bases fit only if they are alike, or differ in what a loose test takes for unknown.
#[tactic(auto, unfolding(crate::specs::Types::fits))]
fn bases_fit<'a>(schema: &'a [u8], condition: &'a [u8], test: Test, x: Base, y: Base) -> bool
    ensures { result ≡ fits_by test (base_of schema.now condition.now x) (base_of schema.now condition.now y) }
{
    match (x, y) {
        (Base::Plain(a), Base::Plain(b)) => a == b,
        (Base::Tagged(t), Base::Tagged(u)) => tags_fit(schema, condition, test, t, u),
        (Base::Untagged, Base::Untagged)
        | (Base::AnyArray, Base::AnyArray)
        | (Base::MixedArray, Base::MixedArray) => true,
        (Base::Tagged(_), Base::Untagged)
        | (Base::Untagged, Base::Tagged(_))
        | (Base::AnyArray, Base::MixedArray)
        | (Base::MixedArray, Base::AnyArray) => test.is_loose(),
        _ => false,
    }
}

// What fits beside an array that has more layers: an array of unknown elements alone.
fn unknown_fits(loose: bool, x: Base) -> bool
    ensures { result ≡ unknown_fits loose x }
{
    loose && matches!(x, Base::AnyArray)
}

// Layers are taken off both types, and what is left must fit.
#[tactic(auto, using(crate::proofs::Fits::by_layers))]
fn fits<'a>(schema: &'a [u8], condition: &'a [u8], test: Test, a: Rich, b: Rich) -> bool
    ensures { result ≡ fits_by test (rich_of schema.now condition.now a) (rich_of schema.now condition.now b) }
{
    match a.layers.cmp(&b.layers) {
        Ordering::Less => unknown_fits(test.is_loose(), a.base),
        Ordering::Equal => bases_fit(schema, condition, test, a.base, b.base),
        Ordering::Greater => unknown_fits(test.is_loose(), b.base),
    }
}

// Equality by structure.
pub fn equal<'a>(schema: &'a [u8], condition: &'a [u8], left: Rich, right: Rich) -> bool
    ensures { result ≡ same_type (rich_of schema.now condition.now left) (rich_of schema.now condition.now right) }
{
    fits(schema, condition, Test::Equal, left, right)
}

// Whether a value of the actual type may stand where the other is declared.
pub fn accepts<'a>(schema: &'a [u8], condition: &'a [u8], declared: Rich, actual: Rich) -> bool
    ensures { result ≡ accepts (rich_of schema.now condition.now declared) (rich_of schema.now condition.now actual) }
{
    fits(schema, condition, Test::Accepts, declared, actual)
}

// Whether the two may stand on the sides of an equality, under the profile.
pub fn compatible<'a>(
    schema: &'a [u8],
    condition: &'a [u8],
    profile: Profile,
    left: Rich,
    right: Rich,
) -> bool
    ensures { result ≡ compatible (profile_in profile) (rich_of schema.now condition.now left) (rich_of schema.now condition.now right) }
{
    fits(schema, condition, Test::Compatible(profile), left, right)
}

// Whether a type is this scalar, with no layer.
#[tactic(auto, unfolding(crate::specs::Meaning::layered))]
fn is_scalar<'a>(schema: &'a [u8], condition: &'a [u8], t: Rich, a: Scalar) -> bool
    ensures { result ≡ same_type (rich_of schema.now condition.now t) (scalar (scalar_of a)) }
{
    equal(schema, condition, t, Rich::from(a))
}

pub fn is_numeric<'a>(schema: &'a [u8], condition: &'a [u8], t: Rich) -> bool
    ensures { result ≡ is_numeric (rich_of schema.now condition.now t) }
{
    is_scalar(schema, condition, t, Scalar::Long)
}

// Whether a type has an order.
fn has_order<'a>(schema: &'a [u8], condition: &'a [u8], t: Rich) -> bool
    ensures { result ≡ has_order (rich_of schema.now condition.now t) }
{
    is_numeric(schema, condition, t)
        || is_scalar(schema, condition, t, Scalar::Datetime)
        || is_scalar(schema, condition, t, Scalar::Duration)
}

// Whether two types may stand on the sides of an order.
pub fn are_ordered<'a>(schema: &'a [u8], condition: &'a [u8], l: Rich, r: Rich) -> bool
    ensures { result ≡ are_ordered (rich_of schema.now condition.now l) (rich_of schema.now condition.now r) }
{
    has_order(schema, condition, l) && equal(schema, condition, l, r)
}

pub fn is_timepoint<'a>(schema: &'a [u8], condition: &'a [u8], t: Rich) -> bool
    ensures { result ≡ same_type (rich_of schema.now condition.now t) (scalar timepoint) }
{
    is_scalar(schema, condition, t, Scalar::Timepoint)
}
