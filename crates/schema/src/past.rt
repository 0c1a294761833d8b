// The place behind what stands in a schema that was read: lengths and counts are added up, and no
// string is looked at again.
ghost use Rattle.std.specs.Prelude.{◌≡◌, true, ◌<◌, length, get_or};
ghost use Rattle.std.proofs.Math.Option.{none};
ghost use Rattle.names.specs.Fields.{counted, levels};
ghost use Rattle.names.specs.Names.{path_name};
ghost use Rattle.names.specs.Read.{ending, row, is_row};
ghost use Rattle.std.specs.Prelude.{Ok};
ghost use Rattle.schema.specs.Schema.{ascending, type_at, attributes, entity_type, action};
ghost use Rattle.schema.specs.Places.{is_type, are_fields, are_names, is_entity, are_entities, entities_at, is_action, attribute_at, KindHere, Below, Inside};

use crate::kind::TypeKind;
use crate::rich::kind_at;
use names::Row;

// The count that stands at `at`.
pub fn count_at(s: &[u8], at: usize) -> usize
    requires { at < length s.now }
    ensures kind_here { KindHere s.now at result }
    ensures upper_bound { result < 256 }
{
    names::wide(s[at])
}

// The type below the sets around it. Each step stands on the type found by the one before,
// which a `take_while` over the bytes would not know.
fn below_sets(s: &[u8], start: usize) -> usize
    requires { is_type s.now start ≡ true }
    ensures below { Below s.now start result }
    ensures other { get_or s.now result 0 ≡ 4 → ⊥ }
{
    let mut at = start;
    while let TypeKind::Set = kind_at(s, at) {
        at += 1;
    }
    at
}

// What stands in a type behind its first byte: the attributes of a record, which end where it does;
// of another type none, from the place behind it.
fn inside(s: &[u8], start: usize) -> Row
    requires { is_type s.now start ≡ true }
    ensures { Inside s.now start result }
{
    let at = below_sets(s, start);
    let kind = kind_at(s, at);
    let next = at + 1;
    match kind {
        TypeKind::Record => Row {
            count: count_at(s, next),
            at: next + 1,
        },
        TypeKind::Extension | TypeKind::Entity => Row {
            count: 0,
            at: names::past_word(s, next),
        },
        _ => Row { count: 0, at: next },
    }
}

// Behind so many attributes: where one is a record, those in it are passed before the others.
// The count grows on the way, by what a record holds, so that no range can say it beforehand.
fn past_attributes(s: &[u8], first: Row) -> usize
    requires { is_row attribute_at s.now first.count first.at ≡ true }
    ensures { Ok result ≡ ending (row attribute_at first.count s.now first.at) }
{
    let mut left = first.count;
    let mut at = first.at;
    while 0 < left {
        let within = inside(s, names::past_word(s, at));
        left -= 1;
        left += within.count;
        at = within.at;
    }
    at
}

pub fn past_type(s: &[u8], at: usize) -> usize
    requires { is_type s.now at ≡ true }
    ensures { Ok result ≡ ending (type_at levels s.now at) }
{
    let within = inside(s, at);
    past_attributes(s, within)
}

// Behind the attributes whose count stands at `at`.
fn past_fields(s: &[u8], at: usize) -> usize
    requires { are_fields s.now at ≡ true }
    ensures { Ok result ≡ ending (attributes (type_at levels) s.now at) }
{
    let count = count_at(s, at);
    past_attributes(s, Row { count, at: at + 1 })
}

// Behind the names whose count stands at `start`.
pub fn past_names(s: &[u8], start: usize) -> usize
    requires { are_names s.now start ≡ true }
    ensures { Ok result ≡ ending (counted (ascending path_name) s.now start) }
{
    let mut at = start + 1;
    for _ in 0..count_at(s, start) {
        at = names::past_word(s, at);
    }
    at
}

pub fn past_entity(s: &[u8], at: usize) -> usize
    requires { is_entity s.now at ≡ true }
    ensures { Ok result ≡ ending (entity_type none s.now at) }
{
    let ancestors = names::past_word(s, at);
    let fields = past_names(s, ancestors);
    past_fields(s, fields)
}

// Behind the entity types of a row.
pub fn past_entities(s: &[u8], entities: Row) -> usize
    requires { are_entities s.now entities.count entities.at ≡ true }
    ensures { Ok result ≡ ending (entities_at entities.count s.now entities.at) }
{
    let mut at = entities.at;
    for _ in 0..entities.count {
        at = past_entity(s, at);
    }
    at
}

pub fn past_action(s: &[u8], at: usize) -> usize
    requires { is_action s.now at ≡ true }
    ensures { Ok result ≡ ending (action none s.now at) }
{
    let id = names::past_word(s, at);
    let principals = names::past_word(s, id);
    let resources = past_names(s, principals);
    let context = past_names(s, resources);
    past_type(s, context)
}
