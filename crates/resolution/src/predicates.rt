// The action that a predicate names: the names of its path stand in a row, and a last `Action` among them is dropped.
ghost use Rattle.std.specs.Prelude.{◌≡◌, ◌<◌};
ghost use Rattle.names.specs.Fields.{string_of};
ghost use Rattle.names.specs.Names.{path_name, last_of};
ghost use Rattle.names.specs.Read.{word_at, row_in, Listed};
ghost use Rattle.schema.specs.Places.{schema_in, FindsAction, ActionsOf};
ghost use Rattle.resolution.specs.Resolution.{without_action, predicate_action};

use names::Row;
use schema::{NameRow, Namespace};

// The last of the names of a row.
fn last_name<'a>(path: NameRow<'a>) -> &'a [u8]
    requires { 0 < path.row.count }
    ensures { result.now
        ≡ last_of (row_in (string_of path_name) path.entry.bytes.now path.entry.row.count
        path.entry.row.at) }
{
    let mut at = path.row.at;
    for _ in 1..path.row.count {
        at = names::past_word(path.bytes, at);
    }
    names::word(path.bytes, at)
}

// The namespace of a predicate: the names of its path without a last `Action`.
fn namespace_of(path: NameRow<'_>) -> Row
    ensures { Listed (string_of path_name) path.entry.bytes.now
        (without_action
        (row_in (string_of path_name) path.entry.bytes.now path.entry.row.count path.entry.row.at))
        result.count result.at }
{
    let count = path.row.count;
    if count < 1 {
        return path.row;
    }
    if names::same(names::simple_name(last_name(path)), b"Action") {
        return Row {
            count: count - 1,
            ..path.row
        };
    }
    path.row
}

// The action of the path and the name, which stands at `name`, among the actions of the schema.
pub fn predicate_action(s: &[u8], actions: Row, path: NameRow<'_>, name: usize) -> Option<usize>
    requires { ActionsOf s.now actions }
    ensures { FindsAction s.now
        (predicate_action (schema_in s.now)
        (row_in (string_of path_name) path.entry.bytes.now path.entry.row.count path.entry.row.at)
        (word_at path.entry.bytes.now name)) result }
{
    let bytes = path.bytes;
    let namespace = Namespace::Parts(NameRow {
        bytes,
        row: namespace_of(path),
    });
    schema::action_among(s, actions, namespace, names::word(bytes, name))
}
