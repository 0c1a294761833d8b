// The facts of a target.
ghost use Rattle.std.specs.Prelude.{◌≡◌};
ghost use Rattle.terms.specs.Facts.{at_node, FactsOf};

use crate::{Common, Facts};
use targets::TargetsRecord;

// The facts of a target whose action was looked up: the scope is the target record's, and the reached condition is the first.
#[tactic(auto, using(crate::proofs::Under::facts_made))]
pub fn facts_of(targets: TargetsRecord, action: Option<usize>, common: Common) -> Facts
    ensures { FactsOf targets.entry.bytes.now action common result }
{
    let principal = targets::principal(targets);
    let resource = targets::resource(targets);
    Facts {
        action,
        principal,
        resource,
        common,
        node: 0,
    }
}

// The same facts at another reached condition.
pub fn at_node(facts: Facts, node: usize) -> Facts
    ensures { result ≡ at_node facts node }
{
    Facts { node, ..facts }
}
