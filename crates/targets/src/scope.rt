// The narrowings of an accepted target record.
ghost use Rattle.std.specs.Prelude.{◌≡◌, true};
ghost use Rattle.names.specs.Read.{ending};
ghost use Rattle.std.specs.Prelude.{Ok};
ghost use Rattle.targets.specs.Targets.{narrowing};
ghost use Rattle.targets.specs.Places.{targets_in, is_narrowing, narrowing_in, Narrows, NarrowedAt};

use crate::{Narrowed, TargetsRecord};

// The narrowing at `at`. The byte is matched and not decoded first: `Narrowed` needs the place
// beside it, and an enum of the bare kinds would be matched a second time to get there. A narrowing
// has its byte, so that the `else` is never met, here and in `past_narrowing`.
pub fn narrowing_at(s: &[u8], at: usize) -> Narrowed
    requires { is_narrowing s.now at ≡ true }
    ensures { Narrows s.now (narrowing_in s.now at) result }
{
    let Some(&kind) = s.get(at) else {
        return Narrowed::Absent;
    };
    match kind {
        0 => Narrowed::Absent,
        1 => Narrowed::Any,
        2 => Narrowed::IsType(at + 1),
        3 => Narrowed::Uid(at + 1),
        _ => Narrowed::Member(at + 1),
    }
}

// Where the byte after the narrowing at `at` stands. The byte is matched and not decoded first, for
// the reason given at `narrowing_at`.
pub fn past_narrowing(s: &[u8], at: usize) -> usize
    requires { is_narrowing s.now at ≡ true }
    ensures { Ok result ≡ ending (narrowing s.now at) }
{
    let Some(&kind) = s.get(at) else {
        return at;
    };
    match kind {
        0 | 1 => at + 1,
        _ => names::past_word(s, at + 1),
    }
}

// Where the principal's narrowing stands.
pub fn principal_at(s: TargetsRecord<'_>) -> usize
    ensures { NarrowedAt s.entry.bytes.now (targets_in s.entry.bytes.now).scope.principal result }
{
    5
}

// Where the resource's narrowing stands.
pub fn resource_at(s: TargetsRecord<'_>) -> usize
    ensures { NarrowedAt s.entry.bytes.now (targets_in s.entry.bytes.now).scope.resource result }
{
    past_narrowing(s.bytes, 5)
}

// What the scope says of the principal. This function and `resource` stay two, and no
// parameter `Side` stands for both, since each promises of its own field of the scope.
pub fn principal(s: TargetsRecord<'_>) -> Narrowed
    ensures { Narrows s.entry.bytes.now (targets_in s.entry.bytes.now).scope.principal result }
{
    let at = principal_at(s);
    narrowing_at(s.bytes, at)
}

// What the scope says of the resource.
pub fn resource(s: TargetsRecord<'_>) -> Narrowed
    ensures { Narrows s.entry.bytes.now (targets_in s.entry.bytes.now).scope.resource result }
{
    let at = resource_at(s);
    narrowing_at(s.bytes, at)
}
