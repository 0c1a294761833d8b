// What a rule's scope admits.
//
// `Nearby` and `Near` stay clauses: the row of a search is another one at each step, so that a
// struct of the schema and the row would be made anew there, to be taken apart by the next step.
ghost use Rattle.std.specs.Prelude.{◌≡◌, true, ◌||◌, List, ℕ};
ghost use Rattle.names.specs.Lists.{any_of};
ghost use Rattle.names.specs.Names.{same};
ghost use Rattle.schema.specs.Places.{schema_in, is_action, action_in, Nearby, Near};
ghost use Rattle.targets.specs.Places.{targets_in};
ghost use Rattle.resolution.specs.Resolution.{ancestors_of, admitted_by, side_admits, admits_any_env, scope_type};
ghost use Rattle.resolution.specs.Places.{is_absent, Nearer, NextOf, NextNearOf, NextPlaced, typed_of, small_type};
ghost use Rattle.resolution.specs.Scopes.{schema_of, narrowing_of, types_of};

use crate::candidates::{Candidates, Scope};
use crate::{Next, NextNear, Typed};
use names::Row;
use schema::SchemaRecord;
use targets::{Narrowed, TargetsRecord};
use types::{Base, Rich};

// An entity type is the one named, or lists it among its ancestors. The search for it ended at `near`.
fn is_in(s: &[u8], near: Row, name: &[u8], group: &[u8]) -> bool
    requires { Near s.now name.now near }
    ensures { result ≡ (same name.now group.now || any_of (λ a. same a group.now) (ancestors_of (schema_in s.now) name.now)) }
{
    if names::same(name, group) {
        return true;
    }
    match schema::entity_here(s, near, name) {
        Some(at) => schema::has_ancestor(s, at, group),
        None => false,
    }
}

// The entity types from the one of a name on, where the narrowing asks for its ancestors; else those that there were.
fn nearer(scope: Scope<'_>, near: Row, name: &[u8]) -> Row
    requires { Nearby scope.schema.bytes.now near }
    ensures { Nearer scope.entry.schema.bytes.now name.now scope.entry.narrowing result }
{
    match scope.narrowing {
        Narrowed::Member(_) => schema::entity_near(scope.schema, near, name),
        _ => near,
    }
}

fn admits_near(scope: Scope<'_>, near: Row, name: &[u8]) -> bool
    requires { Nearer scope.schema.bytes.now name.now scope.narrowing near }
    ensures { result ≡ admitted_by (schema_of scope.entry) (narrowing_of scope.entry) name.now }
{
    let n = scope.targets;
    match scope.narrowing {
        Narrowed::Absent | Narrowed::Any => true,
        Narrowed::IsType(p) | Narrowed::Uid(p) => names::same(name, names::word(n, p)),
        Narrowed::Member(p) => is_in(scope.schema.bytes, near, name, names::word(n, p)),
    }
}

// Whether a scope admits an entity type. With no narrowing, every type is admitted.
pub fn admits(scope: Scope<'_>, name: &[u8]) -> bool
    ensures { result ≡ admitted_by (schema_of scope.entry) (narrowing_of scope.entry) name.now }
{
    let near = nearer(scope, schema::entity_row(scope.schema), name);
    admits_near(scope, near, name)
}

// The next candidate that the scope admits. Searches for entity types begin at `from`, and go on
// along both rows.
fn next_near(candidates: Candidates<'_>, from: Row) -> NextNear
    requires { Nearby candidates.scope.schema.bytes.now from }
    ensures { NextNearOf candidates.entry.scope.schema.bytes.now
        (admitted_by (schema_of candidates.entry.scope) (narrowing_of candidates.entry.scope))
        candidates.entry.types result }
{
    let scope = candidates.scope;
    let s = scope.schema.bytes;
    let mut at = candidates.types.at;
    let mut near = from;
    for left in (0..candidates.types.count).rev() {
        let next = names::past_word(s, at);
        let name = names::word(s, at);
        near = nearer(scope, near, name);
        if admits_near(scope, near, name) {
            let rest = Row {
                count: left,
                at: next,
            };
            return Some((at, rest, near));
        }
        at = next;
    }
    None
}

// The same, and the search for its entity type.
pub fn next_placed(candidates: Candidates<'_>, from: Row) -> NextNear
    requires { Nearby candidates.scope.schema.bytes.now from }
    ensures { NextPlaced candidates.entry.scope.schema.bytes.now
        (admitted_by (schema_of candidates.entry.scope) (narrowing_of candidates.entry.scope))
        candidates.entry.types result }
{
    let schema = candidates.scope.schema;
    let (p, rest, around) = next_near(candidates, from)?;
    let near = schema::entity_near(schema, around, names::word(schema.bytes, p));
    Some((p, rest, near))
}

// The next where no search went before.
pub fn next_admitted(candidates: Candidates<'_>) -> Next
    ensures { NextOf candidates.entry.scope.schema.bytes.now
        (admitted_by (schema_of candidates.entry.scope) (narrowing_of candidates.entry.scope))
        candidates.entry.types result }
{
    let all = schema::entity_row(candidates.scope.schema);
    let (p, rest, _) = next_near(candidates, all)?;
    Some((p, rest))
}

fn is_absent(narrowing: Narrowed) -> bool
    ensures { result ≡ is_absent narrowing }
{
    matches!(narrowing, Narrowed::Absent)
}

// Whether some entity type of a side is admitted; with no narrowing that is not asked.
fn side_admits(candidates: Candidates<'_>) -> bool
    ensures { result ≡ side_admits (schema_of candidates.entry.scope)
        (narrowing_of candidates.entry.scope) (types_of candidates.entry) }
{
    is_absent(candidates.scope.narrowing) || next_admitted(candidates).is_some()
}

// Whether the action at `action` admits an environment under the scope of a target record.
// The two sides differ in a function of `targets` and in one of `schema`, so that no call for both
// is shorter.
pub fn admits_any_env<'a>(
    schema: SchemaRecord<'a>,
    targets: TargetsRecord<'a>,
    action: usize,
) -> bool
    requires { is_action schema.bytes.now action ≡ true }
    ensures { result ≡ admits_any_env (schema_in schema.entry.bytes.now)
        (targets_in targets.entry.bytes.now).scope (action_in schema.entry.bytes.now action) }
{
    let principals = Candidates {
        scope: Scope {
            schema,
            targets: targets.bytes,
            narrowing: targets::principal(targets),
        },
        types: schema::principals(schema.bytes, action),
    };
    let resources = Candidates {
        scope: Scope {
            schema,
            targets: targets.bytes,
            narrowing: targets::resource(targets),
        },
        types: schema::resources(schema.bytes, action),
    };
    side_admits(principals) && side_admits(resources)
}

// The type of a bare `principal` or `resource`: one admitted entity type is tagged, several are untagged.
pub fn scope_type(candidates: Candidates<'_>) -> Typed
    ensures by_index { (c : List ℕ) → typed_of candidates.entry.scope.schema.bytes.now c result
        ≡ scope_type (schema_of candidates.entry.scope) (narrowing_of candidates.entry.scope)
        (types_of candidates.entry) }
    ensures by_index_2 { (c : List ℕ) → small_type (typed_of candidates.entry.scope.schema.bytes.now c result) }
{
    let scope = candidates.scope;
    let (p, types) = next_admitted(candidates)?;
    if next_admitted(Candidates { scope, types }).is_some() {
        return Some(Rich::from(Base::Untagged));
    }
    Some(Rich::from(Base::Tagged(schema::tag_at(scope.schema.bytes, p))))
}
