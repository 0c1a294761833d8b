// The targets of an accepted target record: how many, one after another, and one by its position.
ghost use Rattle.std.specs.Prelude.{◌≡◌, true, length, ◌<◌};
ghost use Rattle.names.specs.Read.{ending, Listed};
ghost use Rattle.std.specs.Prelude.{Ok};
ghost use Rattle.targets.specs.Targets.{target};
ghost use Rattle.targets.specs.PathRecord.{target_at};
ghost use Rattle.targets.specs.Appending.{count_at};
ghost use Rattle.targets.specs.Places.{targets_in, is_target, target_in, CountedAt, FindsTarget};

use crate::TargetsRecord;
use crate::scope::past_narrowing;

// Where the count of targets stands.
pub fn count_at(s: TargetsRecord<'_>) -> usize
    ensures counted_at { CountedAt s.entry.bytes.now (targets_in s.entry.bytes.now).list result }
    ensures value { result ≡ count_at s.entry.bytes.now }
{
    let resource = past_narrowing(s.bytes, 5);
    past_narrowing(s.bytes, resource)
}

// How many targets there are.
pub fn count(s: TargetsRecord<'_>) -> usize
    ensures value { result ≡ length (targets_in s.entry.bytes.now).list }
    ensures upper_bound { result < 256 }
{
    let at = count_at(s);
    names::wide(s.bytes[at])
}

// Where the first target stands, if there is one.
pub fn first_target(s: TargetsRecord<'_>) -> usize
    ensures { Listed target s.entry.bytes.now (targets_in s.entry.bytes.now).list
        (length (targets_in s.entry.bytes.now).list) result }
{
    let at = count_at(s);
    at + 1
}

// Where the target after the one at `at` stands.
pub fn next_target(s: &[u8], at: usize) -> usize
    requires { is_target s.now at ≡ true }
    ensures { Ok result ≡ ending (target s.now at) }
{
    let id = names::past_word(s, at);
    names::past_word(s, id)
}

// The target of a position, counted from 0.
pub fn target_at(s: TargetsRecord<'_>, position: usize) -> Option<usize>
    ensures { FindsTarget s.entry.bytes.now (target_at position (targets_in s.entry.bytes.now).list) result }
{
    if count(s) <= position {
        return None;
    }
    let mut at = first_target(s);
    for _ in 0..position {
        at = next_target(s.bytes, at);
    }
    Some(at)
}

pub fn namespace_of(s: &[u8], at: usize) -> &[u8]
    requires { is_target s.now at ≡ true }
    ensures { result.now ≡ (target_in s.now at).namespace }
{
    names::word(s, at)
}

pub fn id_of(s: &[u8], at: usize) -> &[u8]
    requires { is_target s.now at ≡ true }
    ensures { result.now ≡ (target_in s.now at).id }
{
    names::word_after(s, at)
}
