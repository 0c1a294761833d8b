// What is looked up by name in a schema that was read.
ghost use Rattle.std.specs.Prelude.{◌≡◌, true, ◌&&◌, List, ◌∷◌, ◌++◌, ℕ, ◌+◌, ◌≤◌, length, drop};
ghost use Rattle.names.specs.Fields.{string_of};
ghost use Rattle.names.specs.Lists.{any_of};
ghost use Rattle.names.specs.Names.{same, path_name, joined};
ghost use Rattle.names.specs.Read.{word_at, is_row, row_in};
ghost use Rattle.names.specs.Text.{text};
ghost use Rattle.schema.specs.Find.{find_attribute, find_action, action_type, fields_of};
ghost use Rattle.schema.specs.Places.{are_fields, fields_in, Finds, schema_in, is_type, type_in, is_entity, entity_in, FindsAction, FindsFields, ActionsOf, namespace_in, past_word, goes_on, place_of};

use crate::kind::TypeKind;
use crate::namespace::{NameRow, Namespace};
use crate::parts::{actions, ancestors};
use crate::past::{count_at, past_action, past_type};
use crate::record::SchemaRecord;
use crate::rich::kind_at;
use names::Row;

// The type of an attribute, of those whose count stands at `start`.
pub fn attribute(s: &[u8], start: usize, name: &[u8]) -> Option<usize>
    requires { are_fields s.now start ≡ true }
    ensures { Finds s.now (find_attribute (fields_in s.now start) name.now) result }
{
    let mut at = start + 1;
    for _ in 0..count_at(s, start) {
        let n = names::past_word(s, at);
        if names::same(names::word(s, at), name) {
            return Some(n);
        }
        at = past_type(s, n);
    }
    None
}

// Where the attributes of a type stand, if it is a record.
pub fn record_fields(s: &[u8], at: usize) -> Option<usize>
    requires { is_type s.now at ≡ true }
    ensures { FindsFields s.now (fields_of (type_in s.now at)) result }
{
    match kind_at(s, at) {
        TypeKind::Record => Some(at + 1),
        _ => None,
    }
}

// Whether a name is among those of a row.
pub fn has_name(s: &[u8], row: Row, name: &[u8]) -> bool
    requires { is_row (string_of path_name) s.now row.count row.at ≡ true }
    ensures { result ≡ any_of (λ a. same a name.now) (row_in (string_of path_name) s.now row.count row.at) }
{
    let mut at = row.at;
    for _ in 0..row.count {
        if names::same(names::word(s, at), name) {
            return true;
        }
        at = names::past_word(s, at);
    }
    false
}

// Whether the entity type at `at` lists a name among its ancestors.
pub fn has_ancestor(s: &[u8], at: usize, name: &[u8]) -> bool
    requires { is_entity s.now at ≡ true }
    ensures { result ≡ any_of (λ a. same a name.now) (entity_in s.now at).ancestors }
{
    let row = ancestors(s, at);
    has_name(s, row, name)
}

// Past a part of a type name and the `::` after it, from `from` on. `names::same` compares eight
// bytes at once, which `strip_prefix` does not. The type name goes with the place from which it is
// left, and is no slice of its own, since `goes_on` tells of a place in the whole name what may
// follow there.
fn past_part(t: &[u8], from: usize, part: &[u8]) -> Option<usize>
    requires { from ≤ length t.now }
    ensures by_index { (rest : List ℕ) → goes_on t.now rest result ≡ same (drop from t.now) (part.now ++ (58 ∷ 58 ∷ rest)) }
    ensures result_in_bounds { place_of result ≤ length t.now }
{
    let n = part.len();
    if t.len() - from < n {
        return None;
    }
    let colons = from + n;
    if t.len() - colons < 2 {
        return None;
    }
    let end = colons + 2;
    if names::same(&t[colons..end], b"::") {
        if names::same(&t[from..colons], part) {
            return Some(end);
        }
        return None;
    }
    None
}

// What is left of a type name from `from` on is `Action`.
fn ends_in_action(t: &[u8], from: usize) -> bool
    requires { from ≤ length t.now }
    ensures { result ≡ same (drop from t.now) (text "Action") }
{
    names::same(&t[from..], b"Action")
}

// A type name is that of a namespace's actions.
fn is_type_of(t: &[u8], namespace: &[u8]) -> bool
    ensures { result ≡ same t.now (action_type namespace.now) }
{
    if namespace.len() == 0 {
        return ends_in_action(t, 0);
    }
    let Some(p) = past_part(t, 0, namespace) else {
        return false;
    };
    ends_in_action(t, p)
}

// A type name is that of the actions of a namespace whose parts stand in a row.
fn is_type_of_parts(t: &[u8], parts: NameRow<'_>) -> bool
    ensures { result ≡ same t.now (action_type (namespace_in (Namespace.Parts parts.entry))) }
{
    let bytes = parts.bytes;
    let mut at = parts.row.at;
    let mut from = 0;
    for _ in 0..parts.row.count {
        let Some(p) = past_part(t, from, names::word(bytes, at)) else {
            return false;
        };
        at = names::past_word(bytes, at);
        from = p;
    }
    ends_in_action(t, from)
}

fn is_action_type(t: &[u8], namespace: Namespace<'_>) -> bool
    ensures { result ≡ same t.now (action_type (namespace_in namespace.entry)) }
{
    match namespace {
        Namespace::Whole(whole) => is_type_of(t, whole),
        Namespace::Parts(parts) => is_type_of_parts(t, parts),
    }
}

// The action at `at` is that of a namespace and an id: the id is compared first, since the actions
// of a namespace share their type name. The namespace and the id are two parameters: no fact binds
// them, and each is compared alone.
fn is_action(s: &[u8], at: usize, namespace: Namespace<'_>, id: &[u8]) -> bool
    ensures { result ≡ (same (word_at s.now at) (action_type (namespace_in namespace.entry)) && same (word_at s.now (past_word s.now at)) id.now) }
{
    let same_id = names::same(names::word_after(s, at), id);
    if same_id {
        return is_action_type(names::word(s, at), namespace);
    }
    false
}

// The action of a namespace and an id, by the position of its type name, in the row of the schema's
// actions.
pub fn action_among(s: &[u8], row: Row, namespace: Namespace<'_>, id: &[u8]) -> Option<usize>
    requires { ActionsOf s.now row }
    ensures { FindsAction s.now (find_action (schema_in s.now) (namespace_in namespace.entry) id.now) result }
{
    let mut at = row.at;
    for _ in 0..row.count {
        if is_action(s, at, namespace, id) {
            return Some(at);
        }
        at = past_action(s, at);
    }
    None
}

// The same, in a schema whose row of actions is not at hand.
pub fn action(s: SchemaRecord<'_>, namespace: Namespace<'_>, id: &[u8]) -> Option<usize>
    ensures { FindsAction s.entry.bytes.now (find_action (schema_in s.entry.bytes.now) (namespace_in namespace.entry) id.now) result }
{
    action_among(s.bytes, actions(s), namespace, id)
}
