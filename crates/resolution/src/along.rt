// Paths into a record.
ghost use Rattle.std.specs.Prelude.{◌≡◌, true};
ghost use Rattle.std.proofs.Math.Option.{some};
ghost use Rattle.names.specs.Read.{word_at};
ghost use Rattle.schema.specs.Places.{are_fields, fields_in, is_type, type_in, is_action, action_in};
ghost use Rattle.resolution.specs.Resolution.{resolve_in, context_path, context_type};
ghost use Rattle.resolution.specs.Places.{resolution_of, typed_of, small_resolution, small_type};
ghost use Rattle.resolution.specs.Paths.{path_of, Splits};

use crate::path::{Headed, Path};
use crate::{PathResolution, Typed, Unresolved};
use names::Row;

// A path with a first segment, into the attributes whose count stands at `fields`.
pub fn resolve_in(s: &[u8], fields: usize, path: Headed<'_>) -> PathResolution
    requires { are_fields s.now fields ≡ true }
    ensures result_value { resolution_of s.now path.entry.rest.bytes.now result
        ≡ resolve_in (fields_in s.now fields) (word_at path.entry.rest.bytes.now path.entry.head)
        (path_of path.entry.rest) }
    ensures small_resolution { small_resolution (resolution_of s.now path.entry.rest.bytes.now result) }
{
    let c = path.rest.bytes;
    let rest = path.rest.segments;
    let Some(start) = schema::attribute(s, fields, names::word(c, path.head)) else {
        return Err(Unresolved::HeadMissing);
    };
    let mut t = start;
    let mut at = rest.at;
    for _ in 0..rest.count {
        let Some(attributes) = schema::record_fields(s, t) else {
            return Err(Unresolved::NonRecord(at));
        };
        let Some(u) = schema::attribute(s, attributes, names::word(c, at)) else {
            return Err(Unresolved::NestedMissing(at));
        };
        t = u;
        at = names::past_word(c, at);
    }
    Ok(schema::rich_type(s, t))
}

// A path as its first segment and the others; a path without segments has no first one.
pub fn split_first<'a>(path: Path<'a>) -> Option<Headed<'a>>
    ensures { Splits path.entry.bytes.now path.entry.segments result }
{
    let c = path.bytes;
    let Row { count, at } = path.segments;
    if count == 0 {
        return None;
    }
    let segments = Row {
        count: count - 1,
        at: names::past_word(c, at),
    };
    Some(Headed {
        head: at,
        rest: Path { bytes: c, segments },
    })
}

// A path into a context: one that is no record has no head, and neither has a path without
// segments.
pub fn context_path(s: &[u8], context: usize, path: Path<'_>) -> PathResolution
    requires { is_type s.now context ≡ true }
    ensures result_value { resolution_of s.now path.entry.bytes.now result
        ≡ context_path (type_in s.now context) (path_of path.entry) }
    ensures small_resolution { small_resolution (resolution_of s.now path.entry.bytes.now result) }
{
    let Some(headed) = split_first(path) else {
        return Err(Unresolved::HeadMissing);
    };
    let Some(fields) = schema::record_fields(s, context) else {
        return Err(Unresolved::HeadMissing);
    };
    resolve_in(s, fields, headed)
}

// The type of a path into the context of the action at `action`.
pub fn context_type(s: &[u8], action: usize, path: Path<'_>) -> Typed
    requires { is_action s.now action ≡ true }
    ensures result_value { typed_of s.now path.entry.bytes.now result
        ≡ context_type (some (action_in s.now action)) (path_of path.entry) }
    ensures small_type { small_type (typed_of s.now path.entry.bytes.now result) }
{
    let context = schema::context(s, action);
    context_path(s, context, path).ok()
}
