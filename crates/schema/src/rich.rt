// `rich_type`: the type that the checks compare.
ghost use Rattle.std.specs.Prelude.{◌≡◌, true, List, ℕ, ◌+◌, ◌≤◌, length, get_or};
ghost use Rattle.names.specs.Names.{simple_name};
ghost use Rattle.names.specs.Read.{word_at};
ghost use Rattle.types.specs.Types.{dated};
ghost use Rattle.types.specs.Meaning.{scalar_of, rich_of, base_of, tag_of};
ghost use Rattle.schema.specs.Find.{extension_type, rich_type};
ghost use Rattle.schema.specs.Places.{is_type, type_in, kind_number, KindHere};

use crate::kind::TypeKind;
use types::{Base, Rich, Scalar, Source, Tag};

// The kind of a type. Its first byte stands for one, so that the default is never met.
#[tactic(auto, using(crate::proofs::TypeViews::kinds_here))]
pub fn kind_at(s: &[u8], at: usize) -> TypeKind
    requires { is_type s.now at ≡ true }
    ensures { KindHere s.now at (kind_number result) }
{
    TypeKind::try_from(s[at]).unwrap_or(TypeKind::Never)
}

// The tag of the entity type whose name stands at `at`: a part of the schema's bytes.
pub fn tag_at(s: &[u8], at: usize) -> Tag
    requires { at + 1 + get_or s.now at 0 ≤ length s.now }
    ensures by_index { (c : List ℕ) → tag_of s.now c result ≡ simple_name (word_at s.now at) }
    ensures short { result.len ≤ 255 }
{
    let n = names::wide(s[at]);
    let start = names::simple_start(names::word(s, at));
    Tag {
        source: Source::Schema,
        at: at + 1 + start,
        len: n - start,
    }
}

// The type of an extension, by its simple name.
fn extension_type(word: &[u8]) -> Scalar
    ensures { scalar_of result ≡ extension_type dated word.now }
{
    if names::same(word, b"decimal") {
        return Scalar::Decimal;
    }
    types::time_type(word).unwrap_or(Scalar::String)
}

// The type below the array layers.
fn base_at(s: &[u8], at: usize) -> Base
    requires at_value { is_type s.now at ≡ true }
    requires fact { get_or s.now at 0 ≡ 4 → ⊥ }
    ensures { (c : List ℕ) → base_of s.now c result ≡ rich_type (type_in s.now at) }
{
    match kind_at(s, at) {
        TypeKind::Long => Base::Plain(Scalar::Long),
        TypeKind::String => Base::Plain(Scalar::String),
        TypeKind::Bool => Base::Plain(Scalar::Bool),
        TypeKind::Extension => {
            let name = names::word(s, at + 1);
            Base::Plain(extension_type(names::simple_name(name)))
        }
        TypeKind::AnySet => Base::AnyArray,
        TypeKind::Record => Base::Plain(Scalar::Object),
        TypeKind::Entity => Base::Tagged(tag_at(s, at + 1)),
        TypeKind::Never => Base::Plain(Scalar::Never),
        TypeKind::Set | TypeKind::SeveralEntities | TypeKind::AnyEntity => Base::Untagged,
    }
}

// The type that the checks compare. The layers are passed as in `past::below_sets`, and counted.
pub fn rich_type(s: &[u8], at: usize) -> Rich
    requires { is_type s.now at ≡ true }
    ensures { (c : List ℕ) → rich_of s.now c result ≡ rich_type (type_in s.now at) }
{
    let mut t = at;
    let mut layers = 0;
    while let TypeKind::Set = kind_at(s, t) {
        t += 1;
        layers += 1;
    }
    let base = base_at(s, t);
    Rich { layers, base }
}
