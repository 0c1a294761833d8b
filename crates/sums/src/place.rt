// Where names are looked up.
ghost use Rattle.std.specs.Prelude.{◌<◌, length};
ghost use Rattle.walk.specs.Index.{nodes_of};
ghost use Rattle.walk.specs.Enclosing.{binding_in, Names};

use condition::ConditionRecord;
use walk::Binding;

// A reached condition of a record, by its number in walk order, and the table that the names in it
// are looked up in: it is the record's, under this binding. (What is known of the table says in
// more than one way which lists stand in it, so that it is known in its truncated form.)
#[derive(Clone, Copy)]
pub struct Place<'a> {
    pub condition: ConditionRecord<'a>,
    pub env: &'a [u16],
    pub binding: Binding,
    pub node: usize,
    pub ghost names: { ∥ Names condition.bytes.now (binding_in binding) env.now ∥₁ },
    pub ghost reached: { node < length (nodes_of condition.bytes.now) },
}
