// The flat environment of a record: its binders in a table that is sorted by name, for each name
// the place of its last binder.
//
// A table and the number `n` of its entries so far stay two parameters. The slice of the first `n`
// has no room for one entry more; and a struct that keeps the `&mut` needs in each of these
// functions a clause that its reference is the one that it had, beside the clause `Declared`.
// What may be declared (`MayDeclare`) is of other binders in each function.
ghost use Rattle.std.specs.Prelude.{◌≡◌, true, [], ◌∷◌, ◌+◌, ◌≤◌, length, take};
ghost use Rattle.condition.specs.Walk.{declared_by, declares, binders, has_name, last_named};
ghost use Rattle.condition.specs.Places.{record_in, is_condition, condition_in, is_aggregate, aggregate_in, is_binder, binder_in};
ghost use Rattle.nodes.specs.Kinds.{kind_of};
ghost use Rattle.nodes.specs.Parts.{is_binders, binders_in, BoundBy};
ghost use Rattle.walk.specs.Index.{Index};
ghost use Rattle.walk.specs.Environment.{Environment, SomeEnvironment, SaysOf, MayDeclare, Declared};

use crate::places::reached_at;
use crate::sorted::{insert, replace, spot};
use condition::ConditionRecord;
use nodes::{
    AggregateKind, Bound, Kind, aggregate_kind_at, binders_at, bound_at, first_part, is_named,
    kind_at, name_of, next_aggregate, operands_at, past_binder, past_slot,
};

// One binder more, which has a name: in place of the one of its name, or put in.
fn declare_named(s: &[u8], table: &mut [u16], n: usize, at: usize) -> usize
    requires at_value { is_binder s.now at ≡ true }
    requires at_value_2 { has_name (binder_in s.now at).slot ≡ true }
    requires may_declare { MayDeclare s.now (binder_in s.now at ∷ []) table.old n }
    ensures { Declared s.now (binder_in s.now at ∷ []) table.old n table.new result }
{
    match spot(s, &table[..n], name_of(s, at)) {
        Ok(place) => {
            replace(table, place, at);
            n
        }
        Err(place) => {
            insert(table, n, place, at);
            n + 1
        }
    }
}

// One binder more.
#[tactic(auto, using(crate::proofs::Environments::declaring_one))]
fn declare(s: &[u8], table: &mut [u16], n: usize, at: usize) -> usize
    requires at_value { is_binder s.now at ≡ true }
    requires may_declare { MayDeclare s.now (binder_in s.now at ∷ []) table.old n }
    ensures { Declared s.now (binder_in s.now at ∷ []) table.old n table.new result }
{
    if is_named(s, at) {
        return declare_named(s, table, n, at);
    }
    n
}

// The binders whose count stands there, one after the other.
pub fn declare_all(s: &[u8], table: &mut [u16], n: usize, start: usize) -> usize
    requires start_value { is_binders s.now start ≡ true }
    requires may_declare { MayDeclare s.now (binders_in s.now start) table.old n }
    ensures { Declared s.now (binders_in s.now start) table.old n table.new result }
{
    let mut so_far = n;
    let mut at = start + 1;
    for _ in 0..names::wide(s[start]) {
        so_far = declare(s, table, so_far, at);
        at = past_binder(s, at);
    }
    so_far
}

// The binders of an aggregate.
fn declare_aggregate(s: &[u8], table: &mut [u16], n: usize, at: usize) -> usize
    requires at_value { is_aggregate s.now at ≡ true }
    requires may_declare { MayDeclare s.now (declared_by (aggregate_in s.now at)) table.old n }
    ensures { Declared s.now (declared_by (aggregate_in s.now at)) table.old n table.new result }
{
    match aggregate_kind_at(s, at) {
        AggregateKind::Call => n,
        _ => declare_all(s, table, n, binders_at(s, at)),
    }
}

// The binders of the aggregates of a comparison's operands.
fn declare_operands(s: &[u8], table: &mut [u16], n: usize, at: usize) -> usize
    requires at_value { is_condition s.now at ≡ true }
    requires at_value_2 { kind_of (condition_in s.now at) ≡ 8 }
    requires may_declare { MayDeclare s.now (declares (condition_in s.now at)) table.old n }
    ensures { Declared s.now (declares (condition_in s.now at)) table.old n table.new result }
{
    let mut so_far = n;
    let mut left = operands_at(s, at);
    while let Some((aggregate, others)) = next_aggregate(s, left.count, left.first) {
        so_far = declare_aggregate(s, table, so_far, aggregate);
        left = others;
    }
    so_far
}

// The binders that one reached condition declares.
fn declare_node(s: &[u8], table: &mut [u16], n: usize, at: usize) -> usize
    requires at_value { is_condition s.now at ≡ true }
    requires may_declare { MayDeclare s.now (declares (condition_in s.now at)) table.old n }
    ensures { Declared s.now (declares (condition_in s.now at)) table.old n table.new result }
{
    match kind_at(s, at) {
        Kind::Exists => declare(s, table, n, first_part(s, at)),
        Kind::Comparison => declare_operands(s, table, n, at),
        _ => n,
    }
}

// All binders, in the order of the walk.
fn declare_places(s: &[u8], places: &[u16], table: &mut [u16], n: usize) -> usize
    requires index { Index s.now places.now }
    requires may_declare { MayDeclare s.now (binders (record_in s.now)) table.old n }
    ensures { Declared s.now (binders (record_in s.now)) table.old n table.new result }
{
    let mut so_far = n;
    for i in 0..places.len() {
        so_far = declare_node(s, table, so_far, reached_at(s, places, i));
    }
    so_far
}

// The environment of a record: how many entries it has. 10,921 are room for any record.
pub fn environment(condition: ConditionRecord<'_>, places: &[u16], table: &mut [u16]) -> usize
    requires index { Index condition.bytes.now places.now }
    requires in_bounds { 10921 ≤ length table.old }
    ensures fits { result ≤ length table.new }
    ensures environment { Environment condition.entry.bytes.now (binders (record_in condition.entry.bytes.now)) (take result table.new) }
{
    declare_places(condition.bytes, places, table, 0)
}

// The annotation of the last binder of a name, by halving: in the environment of whatever binders.
pub fn bound_listed(s: &[u8], table: &[u16], name: &[u8]) -> Bound
    requires { SomeEnvironment s.now table.now }
    ensures { SaysOf s.now table.now name.now result }
{
    match spot(s, table, name) {
        Ok(i) => bound_at(s, past_slot(s, usize::from(table[i]))),
        Err(_) => Bound::Nothing,
    }
}

// In the environment of the record.
#[tactic(auto, using(crate::proofs::Environments::asking))]
pub fn bound_in(s: &[u8], table: &[u16], name: &[u8]) -> Bound
    requires { Environment s.now (binders (record_in s.now)) table.now }
    ensures { BoundBy s.now (last_named name.now (binders (record_in s.now))) result }
{
    bound_listed(s, table, name)
}
