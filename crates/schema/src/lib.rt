// The schema record: which bytes are one, and what is looked up in it.
//
// A place in a record is a number, and a contract says beside it what stands there: `is_type`,
// `is_entity`, `is_action`, `are_fields`. It is no struct of bytes and place. The bytes of a record
// are lent once to each function, and a function often goes over several places of them: a struct
// would repeat the bytes at each place, and a function that takes two of them would have to ask
// that both are places of the same record, which one argument for the bytes says by itself.
#![tactic(auto)]

mod find;
mod kind;
mod namespace;
mod near;
mod parts;
mod past;
mod read;
mod record;
mod rich;

pub use find::{action, action_among, attribute, has_ancestor, has_name, record_fields};
pub use kind::TypeKind;
pub use namespace::{NameRow, Namespace};
pub use near::{entity_here, entity_near, entity_row};
pub use parts::{actions, ancestors, context, fields_of, principals, resources};
pub use read::read_schema;
pub use record::SchemaRecord;
pub use rich::{kind_at, rich_type, tag_at};
