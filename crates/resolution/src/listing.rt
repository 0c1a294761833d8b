// What the answers of a scope path list, one after the other, each found by a pass over the entity types of the scope.
ghost use Rattle.std.specs.Prelude.{◌≡◌, List, ℕ};
ghost use Rattle.names.specs.Read.{word_at};
ghost use Rattle.schema.specs.Places.{schema_in, Near};
ghost use Rattle.resolution.specs.Resolution.{missing_at};
ghost use Rattle.resolution.specs.Places.{NextOf, end_of};
ghost use Rattle.resolution.specs.Paths.{path_of, headed_of};
ghost use Rattle.resolution.specs.Scopes.{schema_of, narrowing_of};
ghost use Rattle.resolution.specs.Passes.{fails_at, failing};

use crate::along::split_first;
use crate::candidates::Candidates;
use crate::entity::resolve_one;
use crate::path::{Headed, Path};
use crate::scope::next_placed;
use crate::{Failure, Next, PathEnd};
use names::Row;

fn is_missing_at(c: &[u8], segment: usize, end: PathEnd) -> bool
    ensures { (s : List ℕ) → result ≡ missing_at (word_at c.now segment) (end_of s c.now end) }
{
    match end {
        Err(Failure::Missing(p)) => names::same(names::word(c, segment), names::word(c, p)),
        _ => false,
    }
}

// Whether the path fails by a missing segment on the entity type whose name stands at `name`. The search for it ended at `near`.
fn fails_at(s: &[u8], near: Row, name: usize, path: Headed<'_>, segment: usize) -> bool
    requires { Near s.now (word_at s.now name) near }
    ensures { result ≡ fails_at (schema_in s.now) (headed_of path.entry)
        (word_at path.entry.rest.bytes.now segment) (word_at s.now name) }
{
    let Some(at) = schema::entity_here(s, near, names::word(s, name)) else {
        return false;
    };
    let end = resolve_one(s, at, path);
    is_missing_at(path.rest.bytes, segment, end)
}

fn failing_from(candidates: Candidates<'_>, path: Headed<'_>, segment: usize) -> Next
    ensures { NextOf candidates.entry.scope.schema.bytes.now
        (failing (schema_of candidates.entry.scope) (narrowing_of candidates.entry.scope)
        (headed_of path.entry) (word_at path.entry.rest.bytes.now segment)) candidates.entry.types
        result }
{
    let scope = candidates.scope;
    let mut left = candidates.types;
    let mut near = schema::entity_row(scope.schema);
    while let Some((p, others, around)) = next_placed(Candidates { scope, types: left }, near) {
        if fails_at(scope.schema.bytes, around, p, path, segment) {
            return Some((p, others));
        }
        left = others;
        near = around;
    }
    None
}

// The next candidate that is admitted and on which the path fails by the missing segment at
// `segment`.
pub fn next_failing(candidates: Candidates<'_>, path: Path<'_>, segment: usize) -> Next
    ensures { NextOf candidates.entry.scope.schema.bytes.now
        (failing (schema_of candidates.entry.scope) (narrowing_of candidates.entry.scope)
        (path_of path.entry) (word_at path.entry.bytes.now segment)) candidates.entry.types result }
{
    failing_from(candidates, split_first(path)?, segment)
}
