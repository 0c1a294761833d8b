// What an accepted path record asks: a side, a path, a target. An accepted record has each of the
// bytes that are looked at, so that the arms of `None` are never met.
ghost use Rattle.std.specs.Prelude.{◌≡◌, length};
ghost use Rattle.names.specs.Names.{plain};
ghost use Rattle.names.specs.Fields.{string_of};
ghost use Rattle.names.specs.Read.{Listed};
ghost use Rattle.targets.specs.Places.{query_in, Asks};

use crate::{PathRecord, Side};

// Which side a path record asks about.
pub fn path_side(s: PathRecord<'_>) -> Side
    ensures { Asks (query_in s.entry.bytes.now).side result }
{
    match s.bytes.get(5) {
        None | Some(0) => Side::Principal,
        Some(_) => Side::Resource,
    }
}

// How many segments its path has.
pub fn path_len(s: PathRecord<'_>) -> usize
    ensures { result ≡ length (query_in s.entry.bytes.now).path }
{
    match s.bytes.get(6) {
        None => 0,
        Some(&n) => names::wide(n),
    }
}

// Where they stand.
pub fn path_at(s: PathRecord<'_>) -> usize
    ensures { Listed (string_of plain) s.entry.bytes.now (query_in s.entry.bytes.now).path
        (length (query_in s.entry.bytes.now).path) result }
{
    7
}

// The position of the target that it asks about: the last byte.
pub fn path_position(s: PathRecord<'_>) -> usize
    ensures { result ≡ (query_in s.entry.bytes.now).position }
{
    match s.bytes.last() {
        None => 0,
        Some(&position) => names::wide(position),
    }
}
