// The types that the checks compare: a number of array layers over a base. Their tests, and their
// texts.
#![tactic(auto)]

ghost use Rattle.std.specs.Prelude.{◌≡◌};
ghost use Rattle.types.specs.declared.Base.TheVariants.{Plain};

mod fitting;
mod tags;
mod texts;
mod times;

pub use fitting::{accepts, are_ordered, compatible, equal, is_numeric, is_timepoint};
pub use tags::tag_bytes;
pub use texts::{display, render, text_length};
pub use times::time_type;

#[derive(Clone, Copy, PartialEq, Eq)]
pub enum Scalar {
    Long,
    String,
    Decimal,
    Bool,
    Timepoint,
    Object,
    Never,
    Datetime,
    Duration,
}

// The record that holds a tag.
#[derive(Clone, Copy)]
pub enum Source {
    Schema,
    Condition,
}

// An entity's tag: a part of a record's bytes.
#[derive(Clone, Copy)]
pub struct Tag {
    pub source: Source,
    pub at: usize,
    pub len: usize,
}

// What stands under the layers. `AnyArray` and `MixedArray` are arrays themselves: of unknown
// elements, and of mixed ones.
#[derive(Clone, Copy)]
pub enum Base {
    Plain(Scalar),
    Tagged(Tag),
    Untagged,
    AnyArray,
    MixedArray,
}

// The Rust's `RichType`.
#[derive(Clone, Copy)]
pub struct Rich {
    pub layers: usize,
    pub base: Base,
}

// A base with no layers over it.
impl From<Base> for Rich {
    ghost from_gives = { λ base r. r ≡ record { layers = 0; base = base } };

    fn from(base: Base) -> Rich {
        Rich { layers: 0, base }
    }
}

// A scalar with no layers over it.
impl From<Scalar> for Rich {
    ghost from_gives = { λ a r. r ≡ record { layers = 0; base = Plain a } };

    fn from(scalar: Scalar) -> Rich {
        Rich::from(Base::Plain(scalar))
    }
}

// How an equality takes two entities: plain, any two are compatible, as in the Rust; strict, two
// known, different tags are not.
#[derive(Clone, Copy)]
pub enum Profile {
    Plain,
    Strict,
}

// The tests of two types: the Rust's `==`, `accepts` and `compatible`, of which the last takes the
// profile.
#[derive(Clone, Copy)]
pub enum Test {
    Equal,
    Accepts,
    Compatible(Profile),
}

// The texts of a type: the Rust's `display` and `render`.
#[derive(Clone, Copy)]
pub enum Form {
    Display,
    Render,
}
