// An entity's tag lies in the schema's bytes or in the condition's.
ghost use Rattle.std.specs.Prelude.{◌≡◌};
ghost use Rattle.types.specs.Meaning.{tag_of, tag_part};

use crate::{Base, Source, Tag};

// The tag's bytes, from whichever record holds them. Here and in all that leads here the two
// records are two parameters with one lifetime and no struct: the form that document 01 names.
pub fn tag_bytes<'a>(schema: &'a [u8], condition: &'a [u8], tag: Tag) -> &'a [u8]
    ensures { result.now ≡ tag_of schema.now condition.now tag }
{
    let record = match tag.source {
        Source::Schema => schema,
        Source::Condition => condition,
    };
    names::part_of(record, tag.at, tag.len)
}

// The tag of a base, nothing where it has none.
pub fn tag_part<'a>(schema: &'a [u8], condition: &'a [u8], base: Base) -> &'a [u8]
    ensures { result.now ≡ tag_part schema.now condition.now base }
{
    match base {
        Base::Tagged(tag) => tag_bytes(schema, condition, tag),
        _ => &[],
    }
}
