// What a node is judged in: the three records, the table of the binders, and the facts of a target
// at that node. A part of what is known of them has more than one proof, as the binders around a
// node are listed in more than one way, so that it is known in its truncated form.
ghost use Rattle.terms.specs.Facts.{Known};

use crate::Facts;
use condition::ConditionRecord;
use schema::SchemaRecord;

#[derive(Clone, Copy)]
pub struct Setting<'a> {
    pub schema: SchemaRecord<'a>,
    pub condition: ConditionRecord<'a>,
    pub targets: &'a [u8],
    pub env: &'a [u16],
    pub facts: Facts,
    pub ghost known: { ∥ Known schema.bytes.now condition.bytes.now env.now facts ∥₁ },
}
