// Which bytes are a schema: its types, names, entity types and actions, read in full or refused.
//
// What has to ascend is read with the place of the one before it, or `None` for the first. The
// place and the one before it stay two arguments beside the bytes: a struct of both would be made
// anew for each name that is read, and no fact binds the two, since what reads them finds out
// whether they ascend.
ghost use Rattle.std.specs.Prelude.{◌≡◌};
ghost use Rattle.std.proofs.Math.Option.{none};
ghost use Rattle.names.specs.Class.{class_of};
ghost use Rattle.names.specs.Fields.{many, counted, whole};
ghost use Rattle.names.specs.Names.{path_name};
ghost use Rattle.names.specs.Read.{ending, word_at, earlier};
ghost use Rattle.schema.specs.Schema.{after, ascending, attributes, type_at, entity_type, key_after, action, key_of, schema_record};
ghost use Rattle.schema.specs.Places.{key_at, earlier_key};

use crate::kind::TypeKind;
use names::{Class, Read, Refusal, Row};

// The name at `at` stands after the one before.
fn follows(s: &[u8], before: Option<usize>, at: usize) -> bool
    ensures { result ≡ after (earlier s.now before) (word_at s.now at) }
{
    match before {
        None => true,
        Some(p) => names::is_below(names::word(s, p), names::word(s, at)),
    }
}

// A name of a class, after the one before it.
fn read_name(s: &[u8], at: usize, class: Class, before: Option<usize>) -> Read
    ensures { result ≡ ending (ascending (class_of class) (earlier s.now before) s.now at) }
{
    let n = names::read_string(s, at, class)?;
    if follows(s, before, at) {
        return Ok(n);
    }
    Err(Refusal::NotAscending)
}

// The type whose first byte stands at `at`, with so many levels left.
#[cycle(read_attributes_read_type)]
fn read_type(s: &[u8], at: usize, left: usize) -> Read
    ensures { result ≡ ending (type_at left s.now at) }
{
    let Some(&byte) = s.get(at) else {
        return Err(Refusal::Cut);
    };
    let kind = TypeKind::try_from(byte)?;
    if left == 0 {
        return Err(Refusal::TooDeep);
    }
    match kind {
        TypeKind::Set => read_type(s, at + 1, left - 1),
        TypeKind::Record => read_attributes(s, at + 1, left - 1),
        TypeKind::Extension | TypeKind::Entity => { names::read_string(s, at + 1, Class::PathName) }
        _ => Ok(at + 1),
    }
}

// A count of attributes and the attributes.
#[cycle(read_attributes_read_type)]
fn read_attributes(s: &[u8], start: usize, left: usize) -> Read
    ensures { result ≡ ending (attributes (type_at left) s.now start) }
{
    let Some(&count) = s.get(start) else {
        return Err(Refusal::Cut);
    };
    let mut at = start + 1;
    let mut before = None;
    for _ in 0..names::wide(count) {
        let n = read_name(s, at, Class::Plain, before)?;
        let m = read_type(s, n, left)?;
        before = Some(at);
        at = m;
    }
    Ok(at)
}

// A count of path names and the names, ascending.
fn read_names(s: &[u8], start: usize) -> Read
    ensures { result ≡ ending (counted (ascending path_name) s.now start) }
{
    let Some(&count) = s.get(start) else {
        return Err(Refusal::Cut);
    };
    let mut at = start + 1;
    let mut before = None;
    for _ in 0..names::wide(count) {
        let n = read_name(s, at, Class::PathName, before)?;
        before = Some(at);
        at = n;
    }
    Ok(at)
}

// An entity type, after the one before it.
fn read_entity(s: &[u8], at: usize, before: Option<usize>) -> Read
    ensures { result ≡ ending (entity_type (earlier s.now before) s.now at) }
{
    let n = read_name(s, at, Class::PathName, before)?;
    let m = read_names(s, n)?;
    read_attributes(s, m, 32)
}

// The entity types of a row.
fn read_entities(s: &[u8], row: Row) -> Read
    ensures { result ≡ ending (many (λ e. e.name) entity_type row.count none s.now row.at) }
{
    let mut at = row.at;
    let mut before = None;
    for _ in 0..row.count {
        let n = read_entity(s, at, before)?;
        before = Some(at);
        at = n;
    }
    Ok(at)
}

// The action at `at` stands after the one before: by the type name, then the id.
fn action_follows(s: &[u8], before: Option<usize>, at: usize) -> bool
    ensures { result ≡ key_after (earlier_key s.now before) (key_at s.now at) }
{
    match before {
        None => true,
        Some(p) => key_below(s, p, at),
    }
}

fn key_below(s: &[u8], p: usize, at: usize) -> bool
    ensures { result ≡ key_after (earlier_key s.now (Some p)) (key_at s.now at) }
{
    let kind = names::word(s, p);
    let next = names::word(s, at);
    if names::is_below(kind, next) {
        return true;
    }
    if names::same(kind, next) {
        return names::is_below(names::word_after(s, p), names::word_after(s, at));
    }
    false
}

// An action, after the one before it.
fn read_action(s: &[u8], at: usize, before: Option<usize>) -> Read
    ensures { result ≡ ending (action (earlier_key s.now before) s.now at) }
{
    let n = names::read_string(s, at, Class::PathName)?;
    let m = names::read_string(s, n, Class::Plain)?;
    if action_follows(s, before, at) {
        let p = read_names(s, m)?;
        let q = read_names(s, p)?;
        return read_type(s, q, 32);
    }
    Err(Refusal::NotAscending)
}

// The same loop as that of `read_entities`, over another reader and another key. One function for
// both would take the reader as a closure, and its contract would ask of each call of the closure
// what the reader is defined as, with its key, for each caller to prove. That is more than the six
// lines that it would spare.
fn read_actions(s: &[u8], row: Row) -> Read
    ensures { result ≡ ending (many key_of action row.count none s.now row.at) }
{
    let mut at = row.at;
    let mut before = None;
    for _ in 0..row.count {
        let n = read_action(s, at, before)?;
        before = Some(at);
        at = n;
    }
    Ok(at)
}

// The whole record.
pub fn read_schema(s: &[u8]) -> Read
    ensures { result ≡ ending (whole schema_record s.now) }
{
    let at = names::read_start(s, b"DWS", 1)?;
    let n = names::read_u16(s, at)?;
    let count = names::u16_at(s, at);
    let m = read_entities(s, Row { count, at: n })?;
    let p = names::read_u16(s, m)?;
    let count = names::u16_at(s, m);
    let end = read_actions(s, Row { count, at: p })?;
    names::read_end(s, end)
}
