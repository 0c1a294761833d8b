// Where the parts of a schema that was read stand: its actions, what an entity type and an action
// are made of.
ghost use Rattle.std.specs.Prelude.{◌≡◌, true};
ghost use Rattle.names.specs.Fields.{counted, string_of};
ghost use Rattle.names.specs.Names.{path_name};
ghost use Rattle.names.specs.Read.{ending, Listed};
ghost use Rattle.std.specs.Prelude.{Ok};
ghost use Rattle.schema.specs.Schema.{ascending};
ghost use Rattle.schema.specs.Places.{are_fields, fields_in, are_names, names_in, is_type, type_in, is_entity, entity_in, is_action, action_in, Standing, ActionsOf, past_word};

use crate::past::{count_at, past_entities, past_names};
use crate::record::SchemaRecord;
use names::{Read, Row};

// The names of a list in order: how many, and from where on.
fn row_at(s: &[u8], at: usize) -> Row
    requires { are_names s.now at ≡ true }
    ensures { Listed (string_of path_name) s.now (names_in s.now at) result.count result.at }
{
    let count = count_at(s, at);
    Row { count, at: at + 1 }
}

// The names that an entity type lists as its ancestors.
pub fn ancestors(s: &[u8], at: usize) -> Row
    requires { is_entity s.now at ≡ true }
    ensures { Listed (string_of path_name) s.now (entity_in s.now at).ancestors result.count result.at }
{
    let p = names::past_word(s, at);
    row_at(s, p)
}

// Where the attributes of an entity type stand.
pub fn fields_of(s: &[u8], at: usize) -> usize
    requires { is_entity s.now at ≡ true }
    ensures { Standing (are_fields s.now) (fields_in s.now) (entity_in s.now at).attributes result }
{
    let p = names::past_word(s, at);
    past_names(s, p)
}

// Where the principals of an action stand, after its type name and its id.
fn principals_at(s: &[u8], at: usize) -> usize
    requires { is_action s.now at ≡ true }
    ensures { result ≡ past_word s.now (past_word s.now at) }
{
    let id = names::past_word(s, at);
    names::past_word(s, id)
}

fn resources_at(s: &[u8], at: usize) -> usize
    requires { is_action s.now at ≡ true }
    ensures { Ok result ≡ ending (counted (ascending path_name) s.now (past_word s.now (past_word s.now at))) }
{
    let p = principals_at(s, at);
    past_names(s, p)
}

// The entity types that an action names as principals.
pub fn principals(s: &[u8], at: usize) -> Row
    requires { is_action s.now at ≡ true }
    ensures { Listed (string_of path_name) s.now (action_in s.now at).principals result.count result.at }
{
    let p = principals_at(s, at);
    row_at(s, p)
}

// The entity types that an action names as resources. It differs from `principals` in the place
// alone, and each of the two promises another field.
pub fn resources(s: &[u8], at: usize) -> Row
    requires { is_action s.now at ≡ true }
    ensures { Listed (string_of path_name) s.now (action_in s.now at).resources result.count result.at }
{
    let p = resources_at(s, at);
    row_at(s, p)
}

// Where the type of an action's context stands.
pub fn context(s: &[u8], at: usize) -> usize
    requires { is_action s.now at ≡ true }
    ensures { Standing (is_type s.now) (type_in s.now) (action_in s.now at).context result }
{
    let p = resources_at(s, at);
    past_names(s, p)
}

// The actions of the schema, after its entity types.
pub fn actions(schema: SchemaRecord<'_>) -> Row
    ensures { ActionsOf schema.entry.bytes.now result }
{
    let s = schema.bytes;
    let count = names::u16_at(s, 5);
    let p = past_entities(s, Row { count, at: 7 });
    let number = names::read_u16(s, p);
    // A schema that was read has a count here, so that the `else` is never met.
    let Ok(at) = number else {
        return Row { count: 0, at: 0 };
    };
    let count = names::u16_at(s, p);
    Row { count, at }
}
