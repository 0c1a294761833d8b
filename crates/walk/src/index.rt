// The walk: a row for each reached condition, in walk order. Its place, which makes the index; or
// the scope that it stands in.
//
// A table and the number `n` of its rows so far stay two parameters, as in `flat`: the rows behind
// are not there yet, and a struct that keeps the `&mut` needs in each of these functions a clause
// that its reference is the one that it had.
ghost use Rattle.std.specs.Prelude.{◌≡◌, true, false, ◌≤◌, ◌<◌, length, take};
ghost use Rattle.condition.specs.Places.{condition_here, term_here, is_condition, is_term};
ghost use Rattle.walk.specs.Index.{Index};
ghost use Rattle.walk.specs.Enclosing.{Enclosing};
ghost use Rattle.walk.specs.Rows.{Fits, below, held_by, Handed, InScope, InRow, reached_from, reached_within, Room, MayPut, Put, Filled};

use crate::{Indexed, Row, Scope};
use condition::ConditionRecord;
use nodes::{
    AggregateKind, Kind, TermKind, aggregate_kind_at, body_at, first_part, has_one, has_two,
    kind_at, left_part, past_binder, past_condition, past_term, term_kind_at, term_part,
};

// A place of a record, and the number of a reached condition, lie below 65,536 by the contract:
// `u16::try_from` would bring an error that no caller can meet.
fn put(table: &mut [u16], n: usize, at: usize, row: Row)
    requires { MayPut row (length table.old) n at }
    ensures { Put row table.old n at table.new }
{
    if let Some(scope) = row {
        let holder = scope.holder as u16;
        let node = scope.node as u16;
        table[2 * n] = holder;
        table[2 * n + 1] = node;
        return;
    }
    table[n] = at as u16;
}

// What is handed down below the n-th reached condition, which stands at `at`.
fn row_below(row: Row, at: usize, n: usize) -> Row
    requires { (at < 65536) × (n < 65536) }
    ensures { Handed row result (below row at n) }
{
    match row {
        Some(_) => Some(Scope {
            holder: at,
            node: n,
        }),
        None => None,
    }
}

// In an operand: what is handed down to the body of the aggregate at `at`.
fn row_held(row: Row, at: usize) -> Row
    requires at_bound { at < 65536 }
    requires fits { Fits row }
    ensures { Handed row result (held_by row at) }
{
    let scope = row?;
    Some(Scope {
        holder: at,
        node: scope.node,
    })
}

// The condition at `at` and those reached below it, from the n-th row on.
#[cycle(index_index_operand)]
fn index(s: &[u8], at: usize, table: &mut [u16], n: usize, row: Row) -> Indexed
    requires at_value { is_condition s.now at ≡ true }
    requires room { Room row s.now at (length table.old) n }
    ensures { Filled row InScope s.now at (condition_here s.now at) (reached_from s.now at) table.old n table.new result }
{
    let kind = kind_at(s, at);
    let byte = u8::from(kind);
    put(table, n, at, row);
    let first = n + 1;
    match kind {
        Kind::Comparison => {
            let left = first_part(s, at);
            let within = row_below(row, at, n);
            let a = index_operand(s, left, table, first, within);
            index_operand(s, a.next, table, a.count, within)
        }
        Kind::Exists => {
            let next = past_binder(s, first_part(s, at));
            index(s, next, table, first, row_below(row, at, n))
        }
        _ if has_two(byte) => {
            let a = index(s, first_part(s, at), table, first, row);
            index(s, a.next, table, a.count, row)
        }
        _ if has_one(byte) => index(s, first_part(s, at), table, first, row),
        _ => Indexed {
            next: past_condition(s, at),
            count: first,
        },
    }
}

// Those in the aggregates of a comparison's operand.
#[cycle(index_index_operand)]
fn index_operand(s: &[u8], at: usize, table: &mut [u16], n: usize, row: Row) -> Indexed
    requires at_value { is_term s.now at ≡ true }
    requires room { Room row s.now at (length table.old) n }
    ensures { Filled row InRow s.now at (term_here s.now at) (reached_within s.now at) table.old n table.new result }
{
    match term_kind_at(s, at) {
        TermKind::Aggregate => {
            let aggregate = term_part(s, at);
            if let AggregateKind::Call = aggregate_kind_at(s, aggregate) {
                let next = past_term(s, at);
                return Indexed { next, count: n };
            }
            let body = body_at(s, aggregate);
            let within = row_held(row, aggregate);
            index(s, body, table, n, within)
        }
        TermKind::Arith => {
            let a = index_operand(s, left_part(s, at), table, n, row);
            index_operand(s, a.next, table, a.count, row)
        }
        _ => Indexed {
            next: past_term(s, at),
            count: n,
        },
    }
}

// The whole record: how many entries there are. 3,641 are room for any record.
pub fn index_record(condition: ConditionRecord<'_>, table: &mut [u16]) -> usize
    requires { 3641 ≤ length table.old }
    ensures fits { result ≤ length table.new }
    ensures index { Index condition.entry.bytes.now (take result table.new) }
{
    let filled = index(condition.bytes, nodes::ROOT, table, 0, None);
    filled.count
}

// The scopes of the whole record, two entries for each reached condition: how many entries there are. 7,282 are room for any record.
pub fn enclosing(condition: ConditionRecord<'_>, table: &mut [u16]) -> usize
    requires { 7282 ≤ length table.old }
    ensures fits { result ≤ 7282 }
    ensures enclosing { Enclosing condition.entry.bytes.now (take result table.new) }
{
    let outermost = Some(Scope { holder: 0, node: 0 });
    let filled = index(condition.bytes, nodes::ROOT, table, 0, outermost);
    2 * filled.count
}
