// What version 3 brought: an entity's id, the values of literals, the operator of an Arith. Which
// bytes are one.
ghost use Rattle.std.specs.Prelude.{◌≡◌, Bool, ◌≤◌};
ghost use Rattle.names.specs.Read.{ending};
ghost use Rattle.names.specs.Fields.{Reader, i64, choose};
ghost use Rattle.condition.specs.Condition.{Condition, Term, given, arith_op, entity_fields, term_kinds};
ghost use Rattle.condition.specs.Kinds.{term_kind_number};

use crate::choice::read_choice;
use crate::kind::TermKind;
use names::{Class, Read, Refusal};

// A signed number of 64 bits.
pub fn read_i64(s: &[u8], at: usize) -> Read
    ensures { result ≡ ending (i64 s.now at) }
{
    if s.len().saturating_sub(at) < 8 {
        return Err(Refusal::Cut);
    }
    Ok(at + 8)
}

// The name of an entity's type, and its id.
fn read_entity(s: &[u8], at: usize, version: usize) -> Read
    ensures { result ≡ ending (entity_fields version s.now at) }
{
    let n = names::read_string(s, at, Class::PathName)?;
    if version <= 2 {
        return Ok(n);
    }
    names::read_string(s, n, Class::Plain)
}

// What stands behind the kind byte of an entity or a literal, by its kind: one of those up to a
// Bool, which the last arm reads.
pub fn read_value(s: &[u8], at: usize, kind: TermKind, version: usize) -> Read
    requires { term_kind_number kind ≤ 5 }
    ensures { (c : Reader Condition) (t : Bool → Reader Term) (b : Bool) → result ≡ ending (choose (term_kind_number kind) (term_kinds version c t b) s.now at) }
{
    match kind {
        TermKind::Entity => read_entity(s, at, version),
        _ if version <= 2 => Ok(at),
        TermKind::Integer => read_i64(s, at),
        TermKind::Decimal => decimal::read_decimal(s, at),
        TermKind::String => names::read_string(s, at, Class::Plain),
        _ => read_choice(s, at, 1),
    }
}

// The operator of an Arith.
pub fn read_arith_op(s: &[u8], at: usize, version: usize) -> Read
    ensures { result ≡ ending (given version arith_op s.now at) }
{
    if version <= 2 {
        return Ok(at);
    }
    read_choice(s, at, 2)
}
