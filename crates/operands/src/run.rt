// The type of an operand from bytes: the records are read, the target is found, its action looked up, and the operand typed under it.
ghost use Rattle.std.specs.Prelude.{◌≡◌, true};
ghost use Rattle.types.specs.Types.{plain};
ghost use Rattle.schema.specs.Places.{schema_in, is_action, action_in, found_in, found_stands};
ghost use Rattle.targets.specs.Places.{targets_in, is_target, target_in};
ghost use Rattle.condition.specs.Places.{record_in};
ghost use Rattle.walk.specs.Index.{Index};
ghost use Rattle.terms.specs.Terms.{facts_of};
ghost use Rattle.terms.specs.Settings.{facts_at};
ghost use Rattle.operands.specs.Operands.{answered, under_target, at_position, operand_type};
ghost use Rattle.operands.specs.Answers.{place_of, outcome_of};

use crate::text::show_type;
use crate::{Answer, Operand};
use names::Refusal;
use nodes::{ComparisonAt, Kind};
use schema::Namespace;
use terms::{Common, Setting};
use typecheck::{Records, RefusedRecord};
use types::Profile;
use walk::Binding;

// Where an operand of a comparison stands.
fn place_of(parts: ComparisonAt, which: Operand) -> usize
    ensures { result ≡ place_of parts which }
{
    match which {
        Operand::Left => parts.left,
        Operand::Right => parts.right,
    }
}

// The operand in the setting of a target.
#[tactic(auto, using(crate::proofs::Asking::comparing))]
fn under_facts(setting: Setting, which: Operand, out: &mut [u8]) -> Result<Answer, RefusedRecord>
    ensures { outcome_of result out.new ≡ answered which (record_in setting.entry.condition.bytes.now) (facts_at setting.entry) out.old }
{
    let condition = setting.condition.bytes;
    match nodes::kind_at(condition, nodes::ROOT) {
        Kind::Comparison => {
            let parts = nodes::comparison_at(condition, nodes::ROOT);
            let typed = terms::term_type(setting, place_of(parts, which));
            show_type(setting.schema.bytes, condition, typed, out)
        }
        _ => Ok(Answer::NoComparison),
    }
}

// The operand over the reached nodes: the binders are put into a table.
#[tactic(auto, using(crate::proofs::Asking::by_action))]
fn over_places(
    records: Records,
    places: &[u16],
    own: Option<usize>,
    which: Operand,
    out: &mut [u8],
) -> Result<Answer, RefusedRecord>
    requires index { Index records.condition.bytes.now places.now }
    requires own_value { found_stands (is_action records.schema.bytes.now) own ≡ true }
    ensures { outcome_of result out.new ≡ answered which (record_in records.entry.condition.bytes.now) (facts_of plain (schema_in records.entry.schema.bytes.now) (record_in records.entry.condition.bytes.now) (targets_in records.entry.targets.bytes.now).scope (found_in (action_in records.entry.schema.bytes.now) own)) out.old }
{
    let Records {
        schema,
        condition,
        targets,
    } = records;
    let mut table = [0u16; 10921];
    let k = walk::names_of(Binding::Flat, condition, places, &mut table);
    let common = Common {
        actions: schema::actions(schema),
        profile: Profile::Plain,
        binding: Binding::Flat,
    };
    let facts = terms::facts_of(targets, own, common);
    let setting = Setting {
        schema,
        condition,
        targets: targets.bytes,
        env: &table[..k],
        facts,
    };
    under_facts(setting, which, out)
}

// The operand under a target whose action was looked up: the condition is indexed for its binders.
#[tactic(auto, using(crate::proofs::Asking::by_action))]
fn under_action(
    records: Records,
    own: Option<usize>,
    which: Operand,
    out: &mut [u8],
) -> Result<Answer, RefusedRecord>
    requires { found_stands (is_action records.schema.bytes.now) own ≡ true }
    ensures { outcome_of result out.new ≡ answered which (record_in records.entry.condition.bytes.now) (facts_of plain (schema_in records.entry.schema.bytes.now) (record_in records.entry.condition.bytes.now) (targets_in records.entry.targets.bytes.now).scope (found_in (action_in records.entry.schema.bytes.now) own)) out.old }
{
    let mut table = [0u16; 3641];
    let k = walk::index_record(records.condition, &mut table);
    over_places(records, &table[..k], own, which, out)
}

// The operand under the target at `at`.
#[tactic(auto, using(crate::proofs::Asking::by_target))]
fn under_target(
    records: Records,
    at: usize,
    which: Operand,
    out: &mut [u8],
) -> Result<Answer, RefusedRecord>
    requires { is_target records.targets.bytes.now at ≡ true }
    ensures { outcome_of result out.new ≡ under_target (schema_in records.entry.schema.bytes.now) (record_in records.entry.condition.bytes.now) (targets_in records.entry.targets.bytes.now) which out.old (target_in records.entry.targets.bytes.now at) }
{
    let targets = records.targets.bytes;
    let namespace = Namespace::Whole(targets::namespace_of(targets, at));
    let own = schema::action(records.schema, namespace, targets::id_of(targets, at));
    under_action(records, own, which, out)
}

// The operand of three records that were read.
#[tactic(auto, using(crate::proofs::Asking::positions))]
fn at_position(
    records: Records,
    position: usize,
    which: Operand,
    out: &mut [u8],
) -> Result<Answer, RefusedRecord>
    ensures { outcome_of result out.new ≡ at_position (schema_in records.entry.schema.bytes.now) (record_in records.entry.condition.bytes.now) (targets_in records.entry.targets.bytes.now) position which out.old }
{
    let Some(at) = targets::target_at(records.targets, position) else {
        return Err(RefusedRecord {
            refusal: Refusal::NoSuchTarget,
            record: 3,
        });
    };
    under_target(records, at, which, out)
}

// The type of an operand of the comparison that a condition record holds, under the target at a position of the list, rendered into a lent buffer.
#[tactic(auto, using(crate::proofs::Asking::asking))]
pub fn operand_type<'a>(
    schema: &'a [u8],
    condition: &'a [u8],
    targets: &'a [u8],
    position: usize,
    which: Operand,
    out: &mut [u8],
) -> Result<Answer, RefusedRecord>
    ensures { outcome_of result out.new ≡ operand_type schema.now condition.now targets.now position which out.old }
{
    let records = typecheck::read_records(schema, condition, targets)?;
    at_position(records, position, which, out)
}
