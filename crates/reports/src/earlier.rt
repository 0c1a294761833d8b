// The reports that stand in the buffer: whether one of them has a message and a start.
ghost use Rattle.std.specs.Prelude.{◌≡◌, ◌+◌, ◌≤◌, length, drop};
ghost use Rattle.names.specs.Lists.{any_of};
ghost use Rattle.reports.specs.Reports.{same_pair};
ghost use Rattle.reports.specs.Sink.{breach_of};
ghost use Rattle.reports.specs.Decode.{long_at, report, reports, Whole};

use crate::Report;
use names::{part_of, same, u16_at, u32_at};

// Whether the report at a place has the start and the message of this one: the start is tested
// first, then the length, then the bytes.
pub fn is_repeat(buf: &[u8], at: usize, it: Report<'_>) -> bool
    requires { at + 10 + long_at buf.now at ≤ length buf.now }
    ensures { result ≡ same_pair (breach_of it.entry) (report (drop at buf.now)) }
{
    let first = u32_at(buf, at);
    if it.start != first {
        return false;
    }
    let long = u16_at(buf, at + 8);
    if it.message.len() != long {
        return false;
    }
    same(it.message, part_of(buf, at + 10, long))
}

// Whether one of the first count reports has the start and the message of this one.
pub fn seen(buf: &[u8], count: usize, it: Report<'_>) -> bool
    requires { Whole count buf.now }
    ensures { result ≡ any_of (same_pair (breach_of it.entry)) (reports count buf.now) }
{
    let mut at = 0;
    for _ in 0..count {
        if is_repeat(buf, at, it) {
            return true;
        }
        at += 10 + u16_at(buf, at + 8);
    }
    false
}
