// The window of Formerly, Previous and Since: which bytes are one.
ghost use Rattle.std.specs.Prelude.{◌≡◌, ◌<◌, ◌≤◌};
ghost use Rattle.names.specs.Read.{ending};
ghost use Rattle.condition.specs.Condition.{fits, amount_of, seconds_of, window};
ghost use Rattle.condition.specs.Places.{UnitOf};

use crate::values::read_i64;
use names::{Read, Refusal};

// The seconds of a unit, by its choice byte. The byte goes straight to the seconds: an enum of the
// units would need a match from the byte to it, and one more from it to the seconds.
pub fn unit_seconds(unit: u8) -> u64
    requires { unit ≤ 3 }
    ensures { UnitOf unit result }
{
    match unit {
        0 => 1,
        1 => 60,
        2 => 3600,
        _ => 86400,
    }
}

// Whether an amount of a unit is not below 0, nor above 2^63 - 1 seconds. Below 0 it is at least
// 2^63 as a word without sign, so one test does for both; it multiplies nothing, so nothing wraps.
fn fits(unit: u64, amount: u64) -> bool
    requires { 0 < unit }
    ensures { result ≡ fits unit amount }
{
    amount <= 9223372036854775807 / unit
}

// An amount of a unit.
fn read_amount(s: &[u8], at: usize, unit: u64) -> Read
    requires { 0 < unit }
    ensures { result ≡ ending (amount_of unit s.now at) }
{
    let end = read_i64(s, at)?;
    if fits(unit, names::word_at(s, at)) {
        Ok(end)
    } else {
        Err(Refusal::WindowOutOfRange)
    }
}

// A unit and an amount of it.
fn read_seconds(s: &[u8], at: usize) -> Read
    ensures { result ≡ ending (seconds_of s.now at) }
{
    let Some(&unit) = s.get(at) else {
        return Err(Refusal::Cut);
    };
    if 3 < unit {
        return Err(Refusal::UndefinedChoice);
    }
    read_amount(s, at + 1, unit_seconds(unit))
}

// The window of a version: nothing is read of it in version 1. The byte is matched and not decoded
// first: an enum of the bare kinds would be matched a second time, to read what stands behind the
// byte.
pub fn read_window(s: &[u8], at: usize, version: usize) -> Read
    ensures { result ≡ ending (window version s.now at) }
{
    if version <= 1 {
        return Ok(at);
    }
    let Some(&kind) = s.get(at) else {
        return Err(Refusal::Cut);
    };
    match kind {
        0 => read_seconds(s, at + 1),
        1 => Ok(at + 1),
        _ => Err(Refusal::UndefinedChoice),
    }
}
