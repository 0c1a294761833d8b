// Entity types looked up by names that ascend: each search goes on from where the one before ended,
// so that all of them together pass over each entity type once.
ghost use Rattle.schema.specs.Find.{find_entity};
ghost use Rattle.schema.specs.Places.{schema_in, FindsEntity, EntitiesOf, Nearby, Serving, Near};

use crate::past::past_entity;
use crate::record::SchemaRecord;
use names::Row;

// All entity types of the schema.
pub fn entity_row(s: SchemaRecord<'_>) -> Row
    ensures { EntitiesOf s.entry.bytes.now result }
{
    let count = names::u16_at(s.bytes, 5);
    Row { count, at: 7 }
}

// Where a search begins: where the last one ended, or, where that is behind the name, at the front.
fn beginning(s: SchemaRecord<'_>, from: Row, name: &[u8]) -> Row
    requires { Nearby s.bytes.now from }
    ensures { Serving s.entry.bytes.now name.now result }
{
    if names::is_below(name, names::word(s.bytes, from.at)) {
        return entity_row(s);
    }
    from
}

// The entity types from the last one on whose name is not behind the one looked for. How many are
// left is part of the answer, so the loop counts them down where a range would count beside them.
pub fn entity_near(schema: SchemaRecord<'_>, from: Row, name: &[u8]) -> Row
    requires { Nearby schema.bytes.now from }
    ensures { Near schema.entry.bytes.now name.now result }
{
    let s = schema.bytes;
    let start = beginning(schema, from, name);
    let mut left = start.count;
    let mut at = start.at;
    while 1 < left {
        let next = past_entity(s, at);
        if names::is_below(name, names::word(s, next)) {
            return Row { count: left, at };
        }
        at = next;
        left -= 1;
    }
    Row { count: left, at }
}

// The entity type of the name, where a search for it ended.
pub fn entity_here(s: &[u8], row: Row, name: &[u8]) -> Option<usize>
    requires { Near s.now name.now row }
    ensures { FindsEntity s.now (find_entity (schema_in s.now) name.now) result }
{
    if row.count == 0 {
        return None;
    }
    names::same(names::word(s, row.at), name).then_some(row.at)
}
