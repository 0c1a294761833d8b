// Between steps: a target is appended to the list, or a pending one is withdrawn.
ghost use Rattle.std.specs.Prelude.{◌≡◌, true, [], ◌+◌, ◌<◌, ◌≤◌, length, get_or, set, take};
ghost use Rattle.names.specs.Writer.{Stored};
ghost use Rattle.reports.specs.Answers.{outcome_of};
ghost use Rattle.targets.specs.Places.{are_targets, targets_in};
ghost use Rattle.steps.specs.Steps.{append_to, append, withdraw};
ghost use Rattle.steps.specs.Answers.{stepped_of};

use crate::state::{answered, marked, refused};
use crate::{PENDING, Stepped, Steps, WITHDRAWN};
use names::Refusal;
use reports::{Answer, refuse, written};
use targets::TargetsRecord;

// One target more, its bytes behind the first `end` ones and the count at `at` one more; returns where they end.
fn put_target(list: &mut [u8], at: usize, end: usize, new: &[u8]) -> usize
    requires at_in_bounds { at < length list.old }
    requires at_bound { get_or list.old at 0 ≤ 254 }
    requires in_bounds { end + length new.now ≤ length list.old }
    ensures { Stored (set list.old at (get_or list.old at 0 + 1)) end new.now list.new result }
{
    list[at] += 1;
    names::put(list, end, new)
}

// A target appended to a list that was read: the first `end` bytes of a buffer.
fn append_to(list: &mut [u8], end: usize, new: &[u8]) -> Answer
    requires end_in_bounds { end ≤ length list.old }
    requires list_value { are_targets (take end list.old) ≡ true }
    ensures { outcome_of result list.new ≡ append_to list.old (take end list.old) (targets_in (take end list.old)) new.now }
{
    if let Err(refusal) = targets::read_alone(new) {
        return refuse(refusal, 3);
    }
    let at = targets::count_at(TargetsRecord {
        bytes: &list[..end],
    });
    if 254 < list[at] {
        return refuse(Refusal::ListFull, 0);
    }
    if 32768 < end + new.len() {
        return refuse(Refusal::ListFull, 0);
    }
    if list.len() - end < new.len() {
        return refuse(Refusal::NoSpace, 0);
    }
    written(put_target(list, at, end, new))
}

// A target appended to the list: the first `used` bytes of a buffer (all of it where it is shorter) are record 3.
// The buffer and its number of used bytes come from the C interface, which lends more than the list
// takes, and the caller may count wrongly, so they are no slice before this.
// The number stays beside the buffer up to `put_target`, since the target is put behind the first
// `end` bytes.
pub fn append(list: &mut [u8], used: usize, new: &[u8]) -> Answer
    ensures { outcome_of result list.new ≡ append list.old used new.now }
{
    let end = used.min(list.len());
    if let Err(refusal) = targets::read_targets(&list[..end]) {
        return refuse(refusal, 3);
    }
    append_to(list, end, new)
}

// The target at a position withdrawn, where it is pending.
pub fn withdraw(targets: &[u8], state: Steps, position: u8) -> Stepped
    ensures { stepped_of result [] ≡ withdraw state targets.now position }
{
    if let Err(refusal) = targets::read_targets(targets) {
        return refused(state, refusal, 3);
    }
    let i = usize::from(position);
    if targets::count(TargetsRecord { bytes: targets }) <= i {
        return refused(state, Refusal::NotPending, 0);
    }
    if state.marks[i] != PENDING {
        return refused(state, Refusal::NotPending, 0);
    }
    answered(marked(state, position, WITHDRAWN))
}
