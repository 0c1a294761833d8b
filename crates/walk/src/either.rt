// A name looked up in either way: among all binders of the condition, or among those around its use.
ghost use Rattle.std.specs.Prelude.{◌≡◌, true, ◌<◌, ◌≤◌, length, take};
ghost use Rattle.condition.specs.Walk.{last_named};
ghost use Rattle.nodes.specs.Parts.{BoundBy};
ghost use Rattle.walk.specs.Scopes.{binding_of};
ghost use Rattle.walk.specs.Index.{nodes_of, Index};
ghost use Rattle.walk.specs.Enclosing.{binding_in, around_at, Names};

use crate::Binding;
use crate::around::bound_around;
use crate::flat::{bound_in, environment};
use crate::lists::bodies;
use condition::ConditionRecord;
use nodes::Bound;

// How a caller's rules bind a name: bit 1 gives each binder its own body. The rules come through
// the C interface as the bits of one byte; here they become an enum, and nothing below sees the
// bit.
#[tactic(auto, using(crate::specs::Laws::Names::chosen_own, crate::specs::Laws::Names::chosen_flat))]
pub fn binding_of(rules: u8) -> Binding
    ensures { binding_in result ≡ binding_of rules }
{
    if rules / 2 % 2 == 1 {
        return Binding::Own;
    }
    Binding::Flat
}

// The table that names are looked up in: how many entries it has. 10,921 are room for either of any
// record. That a choice is matched here and in `bound_by` is no table of functions to hand on: the
// two ways fill and read tables of unlike layouts, and a closure would have to carry the fact about
// its own table, which `Names` says of both.
// The table stays a slice with a clause: `&mut [u16; 10921]` would ask of a caller that its table
// is no longer.
pub fn names_of(
    binding: Binding,
    condition: ConditionRecord<'_>,
    places: &[u16],
    table: &mut [u16],
) -> usize
    requires index { Index condition.bytes.now places.now }
    requires in_bounds { 10921 ≤ length table.old }
    ensures fits { result ≤ length table.new }
    ensures names { Names condition.entry.bytes.now (binding_in binding) (take result table.new) }
{
    match binding {
        Binding::Flat => environment(condition, places, table),
        Binding::Own => bodies(condition, table),
    }
}

// The annotation of the binder that binds a name at the node-th reached condition.
pub fn bound_by(binding: Binding, s: &[u8], table: &[u16], node: usize, name: &[u8]) -> Bound
    requires names { Names s.now (binding_in binding) table.now }
    requires node_in_bounds { node < length (nodes_of s.now) }
    ensures { BoundBy s.now (last_named name.now (around_at (binding_in binding) s.now node)) result }
{
    match binding {
        Binding::Flat => bound_in(s, table, name),
        Binding::Own => bound_around(s, table, node, name),
    }
}
