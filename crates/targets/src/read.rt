// The two records, and a target by itself, are read in full, or refused by a number.
ghost use Rattle.std.specs.Prelude.{◌≡◌};
ghost use Rattle.names.specs.Fields.{each, counted, whole};
ghost use Rattle.names.specs.Read.{ending};
ghost use Rattle.targets.specs.Targets.{narrowing, target, target_record};
ghost use Rattle.targets.specs.PathRecord.{scope_side, path_record};
ghost use Rattle.targets.specs.Appending.{alone_target};

use names::{Class, Read, Refusal};

// The byte is matched and not decoded first: an enum of the bare kinds would be matched a second
// time, to read what stands behind the byte.
fn read_narrowing(s: &[u8], at: usize) -> Read
    ensures { result ≡ ending (narrowing s.now at) }
{
    let Some(&kind) = s.get(at) else {
        return Err(Refusal::Cut);
    };
    match kind {
        0 | 1 => Ok(at + 1),
        2..=4 => names::read_string(s, at + 1, Class::PathName),
        _ => Err(Refusal::UndefinedChoice),
    }
}

fn read_target(s: &[u8], at: usize) -> Read
    ensures { result ≡ ending (target s.now at) }
{
    let n = names::read_string(s, at, Class::PathOrNone)?;
    names::read_string(s, n, Class::Plain)
}

// A target by itself: its namespace and its id, and no byte more.
pub fn read_alone(s: &[u8]) -> Read
    ensures { result ≡ ending (alone_target s.now 0) }
{
    let end = read_target(s, 0)?;
    names::read_end(s, end)
}

// A count of targets and the targets. The loop is that of condition's `read_binders` over another
// reader; why no closure stands in its place is said there.
fn read_list(s: &[u8], start: usize) -> Read
    ensures { result ≡ ending (counted (each target) s.now start) }
{
    let Some(&count) = s.get(start) else {
        return Err(Refusal::Cut);
    };
    let mut at = start + 1;
    for _ in 0..count {
        at = read_target(s, at)?;
    }
    Ok(at)
}

// The whole target record.
pub fn read_targets(s: &[u8]) -> Read
    ensures { result ≡ ending (whole target_record s.now) }
{
    let p = names::read_start(s, b"DWT", 1)?;
    let q = read_narrowing(s, p)?;
    let n = read_narrowing(s, q)?;
    let end = read_list(s, n)?;
    names::read_end(s, end)
}

// It is condition's `read_choice` with 1 for the last; this crate stands beside that one and not
// above it. The byte is tested and not decoded: a `Side` would be made and thrown away.
fn read_side(s: &[u8], at: usize) -> Read
    ensures { result ≡ ending (scope_side s.now at) }
{
    let Some(&side) = s.get(at) else {
        return Err(Refusal::Cut);
    };
    match side {
        0 | 1 => Ok(at + 1),
        _ => Err(Refusal::UndefinedChoice),
    }
}

// The whole path record.
pub fn read_path(s: &[u8]) -> Read
    ensures { result ≡ ending (whole path_record s.now) }
{
    let p = names::read_start(s, b"DWP", 1)?;
    let n = read_side(s, p)?;
    let m = names::read_path(s, n)?;
    let end = names::read_u8(s, m)?;
    names::read_end(s, end)
}
