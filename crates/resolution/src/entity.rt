// Paths on one entity type.
ghost use Rattle.std.specs.Prelude.{◌≡◌, true, ◌||◌, List, ℕ};
ghost use Rattle.names.specs.Names.{same};
ghost use Rattle.names.specs.Read.{word_at};
ghost use Rattle.names.specs.Text.{text};
ghost use Rattle.schema.specs.Places.{is_entity, entity_in};
ghost use Rattle.resolution.specs.Resolution.{unattributed, on_entity};
ghost use Rattle.resolution.specs.Places.{end_of, small_end};
ghost use Rattle.resolution.specs.Paths.{path_of};

use crate::along::resolve_in;
use crate::path::Headed;
use crate::{Failure, PathEnd, Unresolved};
use types::{Rich, Scalar};

// The names of an entity's own parts.
fn is_part(name: &[u8]) -> bool
    ensures { result ≡ (same name.now (text "id") || same name.now (text "type")) }
{
    names::same(name, b"id") || names::same(name, b"type")
}

// Where the head is no attribute: `id` and `type` are strings, which have no fields.
fn without_attribute(path: Headed<'_>) -> PathEnd
    ensures { (s : List ℕ) → end_of s path.entry.rest.bytes.now result
        ≡ unattributed (word_at path.entry.rest.bytes.now path.entry.head)
        (path_of path.entry.rest) }
{
    let rest = path.rest.segments;
    if is_part(names::word(path.rest.bytes, path.head)) {
        if rest.count == 0 {
            return Ok(Rich::from(Scalar::String));
        }
        return Err(Failure::NonRecord(rest.at));
    }
    Err(Failure::Missing(path.head))
}

// A path with a first segment, on the entity type at `entity`.
pub fn resolve_one(s: &[u8], entity: usize, path: Headed<'_>) -> PathEnd
    requires { is_entity s.now entity ≡ true }
    ensures result_value { end_of s.now path.entry.rest.bytes.now result
        ≡ on_entity (word_at path.entry.rest.bytes.now path.entry.head) (path_of path.entry.rest)
        (entity_in s.now entity) }
    ensures small_end { small_end (end_of s.now path.entry.rest.bytes.now result) }
{
    let fields = schema::fields_of(s, entity);
    let end = resolve_in(s, fields, path);
    match end {
        Ok(t) => Ok(t),
        Err(Unresolved::HeadMissing) => without_attribute(path),
        Err(Unresolved::NestedMissing(p)) => Err(Failure::Missing(p)),
        Err(Unresolved::NonRecord(p)) => Err(Failure::NonRecord(p)),
    }
}
