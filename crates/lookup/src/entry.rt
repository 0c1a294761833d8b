// The lookup of bytes: the records are read, the target is found, its question is asked.
ghost use Rattle.std.specs.Prelude.{◌≡◌, true};
ghost use Rattle.reports.specs.Answers.{outcome_of};
ghost use Rattle.reports.specs.Placed.{placed};
ghost use Rattle.schema.specs.Places.{is_action, action_in, schema_in};
ghost use Rattle.targets.specs.PathRecord.{Query};
ghost use Rattle.targets.specs.Places.{targets_in, is_target, target_in, query_in, side_of};
ghost use Rattle.resolution.specs.Paths.{path_of};
ghost use Rattle.lookup.specs.Lookup.{on_side, output, found, answered, lookup};
ghost use Rattle.lookup.specs.Places.{answer_on, answer_to};

use crate::place::{place_path, place_unknown};
use crate::question::{Question, Records};
use names::{Refusal, Row};
use reports::{Answer, refuse};
use resolution::{Candidates, Path, Scope};
use schema::{Namespace, SchemaRecord};
use targets::{PathRecord, Side, TargetsRecord};

// The segments of the path record.
fn path_in<'a>(query: PathRecord<'a>) -> Path<'a>
    ensures { path_of result ≡ (query_in query.entry.bytes.now).path }
{
    Path {
        bytes: query.bytes,
        segments: Row {
            count: targets::path_len(query),
            at: targets::path_at(query),
        },
    }
}

// The entity types that the action at `action` names on a side, under what the scope says of it.
fn candidates<'a>(records: Records<'a>, action: usize, side: Side) -> Candidates<'a>
    requires { is_action records.schema.bytes.now action ≡ true }
    ensures by_index { (q : Query) → answer_on result q.path
        ≡ on_side (schema_in records.entry.schema.bytes.now)
        (targets_in records.entry.targets.bytes.now)
        q (action_in records.entry.schema.bytes.now action) (side_of side) }
{
    let schema = records.schema;
    let targets = records.targets.bytes;
    let (narrowing, types) = match side {
        Side::Principal => (
            targets::principal(records.targets),
            schema::principals(schema.bytes, action),
        ),
        Side::Resource => (
            targets::resource(records.targets),
            schema::resources(schema.bytes, action),
        ),
    };
    Candidates {
        scope: Scope {
            schema,
            targets,
            narrowing,
        },
        types,
    }
}

// The question that the path record asks of the action at `action`.
fn question<'a>(records: Records<'a>, action: usize) -> Question<'a>
    requires { is_action records.schema.bytes.now action ≡ true }
    ensures { answer_to result
        ≡ on_side (schema_in records.entry.schema.bytes.now)
        (targets_in records.entry.targets.bytes.now)
        (query_in records.entry.query.bytes.now) (action_in records.entry.schema.bytes.now action)
        (query_in records.entry.query.bytes.now).side }
{
    Question {
        candidates: candidates(records, action, targets::path_side(records.query)),
        path: path_in(records.query),
    }
}

// The lookup for the target at `at`.
fn for_target(records: Records<'_>, at: usize, out: &mut [u8]) -> Answer
    requires { is_target records.targets.bytes.now at ≡ true }
    ensures { outcome_of result out.new
        ≡ placed (output
        (found (schema_in records.entry.schema.bytes.now)
        (targets_in records.entry.targets.bytes.now)
        (query_in records.entry.query.bytes.now) (target_in records.entry.targets.bytes.now at)))
        out.old }
{
    let n = records.targets.bytes;
    let namespace = Namespace::Whole(targets::namespace_of(n, at));
    let own = schema::action(records.schema, namespace, targets::id_of(n, at));
    let Some(action) = own else {
        return place_unknown(out);
    };
    place_path(question(records, action), out)
}

// The lookup of three records that were read.
fn for_records(records: Records<'_>, out: &mut [u8]) -> Answer
    ensures { outcome_of result out.new
        ≡ answered (schema_in records.entry.schema.bytes.now)
        (targets_in records.entry.targets.bytes.now)
        (query_in records.entry.query.bytes.now) out.old }
{
    let position = targets::path_position(records.query);
    let own = targets::target_at(records.targets, position);
    let Some(at) = own else {
        return refuse(Refusal::NoSuchTarget, 3);
    };
    for_target(records, at, out)
}

// The lookup of a schema, a target record and a path record, into a lent buffer.
pub fn lookup<'a>(s: &'a [u8], n: &'a [u8], c: &'a [u8], out: &mut [u8]) -> Answer
    ensures { outcome_of result out.new ≡ lookup s.now n.now c.now out.old }
{
    if let Err(refusal) = schema::read_schema(s) {
        return refuse(refusal, 1);
    }
    if let Err(refusal) = targets::read_targets(n) {
        return refuse(refusal, 3);
    }
    if let Err(refusal) = targets::read_path(c) {
        return refuse(refusal, 4);
    }
    let records = Records {
        schema: SchemaRecord { bytes: s },
        targets: TargetsRecord { bytes: n },
        query: PathRecord { bytes: c },
    };
    for_records(records, out)
}
