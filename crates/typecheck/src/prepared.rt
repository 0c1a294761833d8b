// What is made ready once, before any target is looked at, and a target that is checked.
ghost use Rattle.walk.specs.Index.{Index};
ghost use Rattle.terms.specs.Facts.{Ready};
ghost use Rattle.typecheck.specs.Known.{KnownUnder};

use crate::Records;
use terms::{Common, Facts};

// What all visits of a run share: the records, the places of the reached conditions in walk order,
// the table of the binders, and what the targets have in common. A struct keeps a fact only where
// antt sees that it has one proof at most, so both are truncated; laws take them out again
// (`mere_index`, and `mere_ready` in `terms`).
#[derive(Clone, Copy)]
pub struct Run<'a> {
    pub records: Records<'a>,
    pub places: &'a [u16],
    pub env: &'a [u16],
    pub common: Common,
    pub ghost index: { ∥ Index records.condition.bytes.now places.now ∥₁ },
    pub ghost ready: { ∥ Ready records.schema.bytes.now records.condition.bytes.now env.now common ∥₁ },
}

// A target of a run that is checked, and not skipped, by its facts.
#[derive(Clone, Copy)]
pub struct Checked<'a> {
    pub run: Run<'a>,
    pub facts: Facts,
    pub ghost known: { ∥ KnownUnder run.records.schema.bytes.now run.records.condition.bytes.now run.env.now facts ∥₁ },
}
