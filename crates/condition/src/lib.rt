// The condition record: which bytes are one (`read_condition`), and what its tree is
// (`specs/Condition`).
//
// A position of accepted bytes denotes a condition, a term, a binder, .. (`specs/Places`).
// `specs/Walk` says what the walk of a condition reaches and which binders it passes. The crate
// `nodes` takes a node apart, the crate `walk` goes through a record.
#![tactic(auto)]

mod choice;
mod kind;
mod read;
mod record;
mod values;
mod window;

pub use kind::{AggregateKind, Kind, TermKind};
pub use read::{
    read_binder, read_binders, read_condition, read_slot, read_subcondition, read_term, version,
};
pub use record::ConditionRecord;
pub use values::{read_arith_op, read_value};
pub use window::{read_window, unit_seconds};
