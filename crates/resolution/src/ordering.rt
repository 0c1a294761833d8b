// The different texts of the types that a path has on the entity types of a scope, in order: each is found by a pass.
ghost use Rattle.std.specs.Prelude.{◌≡◌, true, ◌&&◌, ◌∷◌};
ghost use Rattle.std.proofs.Math.Option.{some};
ghost use Rattle.names.specs.Lists.{select};
ghost use Rattle.names.specs.Names.{below};
ghost use Rattle.names.specs.Read.{word_at};
ghost use Rattle.types.specs.Types.{render};
ghost use Rattle.types.specs.Laws.Texts.{Small};
ghost use Rattle.types.specs.Meaning.{rich_of};
ghost use Rattle.schema.specs.Places.{schema_in, Near};
ghost use Rattle.resolution.specs.Places.{typed_of, small_type};
ghost use Rattle.resolution.specs.Paths.{path_of, headed_of};
ghost use Rattle.resolution.specs.Scopes.{schema_of, narrowing_of, types_of};
ghost use Rattle.resolution.specs.Passes.{rendered, above, under, closest, type_on, renderings_on, next_rendered};

use crate::Typed;
use crate::along::split_first;
use crate::candidates::Candidates;
use crate::entity::resolve_one;
use crate::path::{Headed, Path};
use crate::scope::next_placed;
use names::Row;
use types::Rich;

// Whether the text of the first type stands before that of the second.
fn renders_below<'a>(s: &'a [u8], c: &'a [u8], t: Rich, u: Rich) -> bool
    requires small { Small (rich_of s.now c.now t) }
    requires small_2 { Small (rich_of s.now c.now u) }
    ensures { result ≡ below (render (rich_of s.now c.now t)) (render (rich_of s.now c.now u)) }
{
    let mut left = [0u8; 512];
    let mut right = [0u8; 512];
    let n = types::render(&mut left, 0, s, c, t);
    let m = types::render(&mut right, 0, s, c, u);
    names::is_below(&left[..n], &right[..m])
}

// These ask for a text behind the last one, and for one before the best: they differ in which of
// the two texts stands first. As `last.is_none_or(|u| ..)` the closure would carry the clause of
// each, since its caller does not see what the body of a closure answers.
fn is_above<'a>(s: &'a [u8], c: &'a [u8], last: Typed, t: Rich) -> bool
    requires small_type { small_type (typed_of s.now c.now last) }
    requires small { Small (rich_of s.now c.now t) }
    ensures { result ≡ above (rendered (typed_of s.now c.now last)) (render (rich_of s.now c.now t)) }
{
    match last {
        Some(u) => renders_below(s, c, u, t),
        None => true,
    }
}

fn is_under<'a>(s: &'a [u8], c: &'a [u8], best: Typed, t: Rich) -> bool
    requires small_type { small_type (typed_of s.now c.now best) }
    requires small { Small (rich_of s.now c.now t) }
    ensures { result ≡ under (rendered (typed_of s.now c.now best)) (render (rich_of s.now c.now t)) }
{
    match best {
        Some(u) => renders_below(s, c, t, u),
        None => true,
    }
}

// Of the best type so far and another, the one whose text stands first behind the last.
fn closer<'a>(s: &'a [u8], c: &'a [u8], last: Typed, best: Typed, other: Typed) -> Typed
    requires small_type { small_type (typed_of s.now c.now last) }
    requires small_type_2 { small_type (typed_of s.now c.now best) }
    requires small_type_3 { small_type (typed_of s.now c.now other) }
    ensures result_value { typed_of s.now c.now result ≡ closest (rendered (typed_of s.now c.now last)) (typed_of s.now c.now best) (typed_of s.now c.now other) }
    ensures small_type_4 { small_type (typed_of s.now c.now result) }
{
    let Some(t) = other else {
        return best;
    };
    if is_above(s, c, last, t) && is_under(s, c, best, t) {
        return Some(t);
    }
    best
}

// The type of the path on the entity type whose name stands at `name`. The search for it ended at `near`.
fn type_on(s: &[u8], near: Row, name: usize, path: Headed<'_>) -> Typed
    requires { Near s.now (word_at s.now name) near }
    ensures result_value { typed_of s.now path.entry.rest.bytes.now result
        ≡ type_on (schema_in s.now) (headed_of path.entry) (word_at s.now name) }
    ensures small_type { small_type (typed_of s.now path.entry.rest.bytes.now result) }
{
    let at = schema::entity_here(s, near, names::word(s, name))?;
    resolve_one(s, at, path).ok()
}

fn rendering_from<'a>(candidates: Candidates<'a>, path: Headed<'a>, last: Typed) -> Typed
    requires small_type { small_type (typed_of candidates.scope.schema.bytes.now path.rest.bytes.now last) }
    ensures result_value { next_rendered
        (renderings_on (schema_of candidates.entry.scope) (narrowing_of candidates.entry.scope)
        (types_of candidates.entry) (headed_of path.entry))
        (typed_of candidates.entry.scope.schema.bytes.now path.entry.rest.bytes.now result)
        ≡ select (above
        (rendered (typed_of candidates.entry.scope.schema.bytes.now path.entry.rest.bytes.now
        last))) (renderings_on (schema_of candidates.entry.scope)
        (narrowing_of candidates.entry.scope) (types_of candidates.entry) (headed_of path.entry)) }
    ensures small_type_2 { small_type (typed_of candidates.entry.scope.schema.bytes.now path.entry.rest.bytes.now
        result) }
{
    let scope = candidates.scope;
    let s = scope.schema.bytes;
    let mut left = candidates.types;
    let mut best = None;
    let mut near = schema::entity_row(scope.schema);
    while let Some((p, others, around)) = next_placed(Candidates { scope, types: left }, near) {
        let own = type_on(s, around, p, path);
        best = closer(s, path.rest.bytes, last, best, own);
        left = others;
        near = around;
    }
    best
}

// The type whose text is the next behind that of the last one written, or the first where none is.
pub fn next_rendering<'a>(candidates: Candidates<'a>, path: Path<'a>, last: Typed) -> Typed
    requires small_type { small_type (typed_of candidates.scope.schema.bytes.now path.bytes.now last) }
    ensures result_value { next_rendered
        (renderings_on (schema_of candidates.entry.scope) (narrowing_of candidates.entry.scope)
        (types_of candidates.entry) (path_of path.entry))
        (typed_of candidates.entry.scope.schema.bytes.now path.entry.bytes.now result)
        ≡ select (above
        (rendered (typed_of candidates.entry.scope.schema.bytes.now path.entry.bytes.now last)))
        (renderings_on (schema_of candidates.entry.scope) (narrowing_of candidates.entry.scope)
        (types_of candidates.entry) (path_of path.entry)) }
    ensures small_type_2 { small_type (typed_of candidates.entry.scope.schema.bytes.now path.entry.bytes.now result) }
{
    rendering_from(candidates, split_first(path)?, last)
}
