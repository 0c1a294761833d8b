// The window of a Formerly, a Previous, a Since.
ghost use Rattle.std.specs.Prelude.{◌≡◌, true, ◌≤◌};
ghost use Rattle.names.specs.Read.{accepted, value_or};
ghost use Rattle.condition.specs.Condition.{unsaid, seconds, seconds_of};
ghost use Rattle.condition.specs.Places.{version_in, is_condition, is_window, window_in};
ghost use Rattle.nodes.specs.Offsets.{window_length};
ghost use Rattle.nodes.specs.Parts.{window_from, WindowHere};

use crate::WindowAt;

// How many bytes the window at `at` takes.
#[tactic(auto, using(crate::proofs::Windowed::lengths))]
pub fn window_length(s: &[u8], at: usize) -> usize
    requires { is_window s.now at ≡ true }
    ensures value { result ≡ window_length (version_in s.now) s.now at }
    ensures upper_bound { result ≤ 10 }
{
    if condition::version(s) <= 1 {
        return 0;
    }
    if s[at] == 0 {
        return 10;
    }
    1
}

// The seconds of the unit and the amount at `at`: of an accepted record they fit 63 bits.
#[tactic(auto, using(crate::proofs::Windowed::amounts))]
fn seconds_at(s: &[u8], at: usize) -> u64
    requires { accepted (seconds_of s.now at) ≡ true }
    ensures { value_or unsaid (seconds_of s.now at) ≡ seconds result }
{
    names::word_at(s, at + 1) * condition::unit_seconds(s[at])
}

// What the window at `at` says. The byte is matched and not decoded first: `WindowAt` needs the
// seconds behind it, and an enum of the bare kinds would be matched a second time to get there.
#[tactic(auto, using(crate::proofs::Windowed::sayings))]
fn said_at(s: &[u8], at: usize) -> WindowAt
    requires { is_window s.now at ≡ true }
    ensures { window_in s.now at ≡ window_from result }
{
    if condition::version(s) <= 1 {
        return WindowAt::Unsaid;
    }
    if s[at] == 0 {
        return WindowAt::Seconds(seconds_at(s, at + 1));
    }
    WindowAt::Parameter
}

// The window of the condition at `at`. The kind is told by its byte and by no `Kind`: the
// definition `window_kind` goes by the number, and `kind_at` stands in `parts`, which is built on
// `offsets` and so on this module.
pub fn window_at(s: &[u8], at: usize) -> WindowAt
    requires { is_condition s.now at ≡ true }
    ensures { WindowHere s.now at result }
{
    match s[at] {
        4..=6 => said_at(s, at + 9),
        _ => WindowAt::Unsaid,
    }
}
