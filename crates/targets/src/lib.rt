// The target record and the path record: which bytes are one, and what stands in them.
//
// A function that reads the whole record takes it as the record that was accepted. A function at a
// place takes the bytes and the place, and its contract says what stands there: a place is a number
// in the bytes of one record, which is lent once. A struct of bytes and place would hold the record
// again at each place, and a function with two places would have to ask that both are of one
// record.
#![tactic(auto)]

mod list;
mod query;
mod read;
mod record;
mod scope;

pub use list::{count, count_at, first_target, id_of, namespace_of, next_target, target_at};
pub use query::{path_at, path_len, path_position, path_side};
pub use read::{read_alone, read_path, read_targets};
pub use record::{PathRecord, TargetsRecord};
pub use scope::{narrowing_at, principal, principal_at, resource, resource_at};

// What a rule's scope says of a side; a type name is the position of its length byte.
#[derive(Clone, Copy)]
pub enum Narrowed {
    Absent,
    Any,
    IsType(usize),
    Uid(usize),
    Member(usize),
}

#[derive(Clone, Copy)]
pub enum Side {
    Principal,
    Resource,
}
