// Paths on all the entity types that a scope admits.
ghost use Rattle.std.specs.Prelude.{◌≡◌, Ok};
ghost use Rattle.types.specs.Meaning.{rich_of};
ghost use Rattle.schema.specs.Places.{Nearby};
ghost use Rattle.resolution.specs.Resolution.{scope_path};
ghost use Rattle.resolution.specs.Places.{end_of, small_path};
ghost use Rattle.resolution.specs.Paths.{path_of, headed_of};
ghost use Rattle.resolution.specs.Scopes.{schema_of, narrowing_of, types_of};
ghost use Rattle.resolution.specs.Passes.{scope_number, scope_of, briefly, end_beside, with_end, failed_by, alone_of, among_of};

use crate::along::split_first;
use crate::candidates::Candidates;
use crate::entity::resolve_one;
use crate::path::{Headed, Path};
use crate::scope::next_placed;
use crate::{Failure, PathEnd, ScopePath};
use names::Row;
use types::Rich;

// Document 01's number of an answer. Three answers hold a type or a place, and `as u8` gives the
// number of a case only where no case holds anything.
pub fn scope_number(answer: ScopePath) -> u8
    ensures { result ≡ scope_number answer }
{
    match answer {
        ScopePath::Resolved(_) => 0,
        ScopePath::Missing(_) => 1,
        ScopePath::NonRecord(_) => 2,
        ScopePath::Ambiguous => 3,
        ScopePath::Unknown => 4,
    }
}

// A failure on one entity type, as an answer for all.
impl From<Failure> for ScopePath {
    ghost from_gives = { λ failure answer. answer ≡ failed_by failure };

    fn from(failure: Failure) -> ScopePath {
        match failure {
            Failure::Missing(p) => ScopePath::Missing(p),
            Failure::NonRecord(p) => ScopePath::NonRecord(p),
        }
    }
}

// `alone`, `among` and `beside` differ in the arm of a type: a closure for it would have to carry
// what each of them promises there.
//
// The answer where one entity type is all that is known.
fn alone(end: PathEnd) -> ScopePath
    ensures { result ≡ alone_of end }
{
    match end {
        Ok(t) => ScopePath::Resolved(t),
        Err(failure) => ScopePath::from(failure),
    }
}

// The answer where the others do not agree.
fn among(end: PathEnd) -> ScopePath
    ensures { result ≡ among_of end }
{
    match end {
        Ok(_) => ScopePath::Ambiguous,
        Err(failure) => ScopePath::from(failure),
    }
}

// The answer where the others agree on a type.
fn agreed<'a>(s: &'a [u8], c: &'a [u8], t: Rich, u: Rich) -> ScopePath
    ensures { scope_of s.now c.now result
        ≡ end_beside (rich_of s.now c.now t) (end_of s.now c.now (Ok u)) }
{
    if types::equal(s, c, u, t) {
        return ScopePath::Resolved(t);
    }
    ScopePath::Ambiguous
}

fn beside<'a>(s: &'a [u8], c: &'a [u8], t: Rich, end: PathEnd) -> ScopePath
    ensures { scope_of s.now c.now result ≡ end_beside (rich_of s.now c.now t) (end_of s.now c.now end) }
{
    match end {
        Ok(u) => agreed(s, c, t, u),
        Err(failure) => ScopePath::from(failure),
    }
}

// The answer for the entity types so far, with one more: the first failure stays.
fn with_end<'a>(s: &'a [u8], c: &'a [u8], known: ScopePath, end: PathEnd) -> ScopePath
    ensures { scope_of s.now c.now result ≡ with_end (scope_of s.now c.now known) (end_of s.now c.now end) }
{
    match known {
        ScopePath::Resolved(t) => beside(s, c, t, end),
        ScopePath::Ambiguous => among(end),
        ScopePath::Unknown => alone(end),
        failed => failed,
    }
}

// A path with a first segment, on all admitted candidates, which are looked up from `from` on.
fn over_types<'a>(candidates: Candidates<'a>, from: Row, path: Headed<'a>) -> ScopePath
    requires { Nearby candidates.scope.schema.bytes.now from }
    ensures result_value { scope_of candidates.entry.scope.schema.bytes.now path.entry.rest.bytes.now result
        ≡ briefly (scope_path (schema_of candidates.entry.scope)
        (narrowing_of candidates.entry.scope) (types_of candidates.entry) (headed_of path.entry)) }
    ensures small_path { small_path (scope_of candidates.entry.scope.schema.bytes.now path.entry.rest.bytes.now
        result) }
{
    let scope = candidates.scope;
    let s = scope.schema.bytes;
    let mut left = candidates.types;
    let mut known = ScopePath::Unknown;
    let mut near = from;
    while let Some((p, others, around)) = next_placed(Candidates { scope, types: left }, near) {
        let Some(at) = schema::entity_here(s, around, names::word(s, p)) else {
            return ScopePath::Unknown;
        };
        let end = resolve_one(s, at, path);
        known = with_end(s, path.rest.bytes, known, end);
        left = others;
        near = around;
    }
    known
}

// An attribute path under a scope.
pub fn resolve_scope_path<'a>(candidates: Candidates<'a>, path: Path<'a>) -> ScopePath
    ensures result_value { scope_of candidates.entry.scope.schema.bytes.now path.entry.bytes.now result
        ≡ briefly (scope_path (schema_of candidates.entry.scope)
        (narrowing_of candidates.entry.scope) (types_of candidates.entry) (path_of path.entry)) }
    ensures small_path { small_path (scope_of candidates.entry.scope.schema.bytes.now path.entry.bytes.now result) }
{
    let Some(headed) = split_first(path) else {
        return ScopePath::Unknown;
    };
    over_types(
        candidates,
        schema::entity_row(candidates.scope.schema),
        headed,
    )
}
