// The first pending target of the list.
ghost use Rattle.std.specs.Prelude.{◌≡◌};
ghost use Rattle.targets.specs.Places.{targets_in};
ghost use Rattle.steps.specs.Steps.{first_pending};
ghost use Rattle.steps.specs.Parts.{FindsPending};

use crate::{PENDING, Pending, Steps};
use targets::TargetsRecord;

pub fn first_pending(targets: TargetsRecord<'_>, state: Steps) -> Option<Pending>
    ensures { FindsPending targets.entry.bytes.now
        (first_pending state.marks 0 (targets_in targets.entry.bytes.now).list) result }
{
    let mut at = targets::first_target(targets);
    for position in 0..targets::count(targets) as u8 {
        if state.marks[usize::from(position)] == PENDING {
            return Some(Pending { position, at });
        }
        at = targets::next_target(targets.bytes, at);
    }
    None
}
