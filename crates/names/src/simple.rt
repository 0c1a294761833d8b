// The simple name: a part of the bytes given.
ghost use Rattle.std.specs.Prelude.{◌≡◌, ◌+◌, ◌≤◌, length, drop};
ghost use Rattle.names.specs.Names.{simple_name};
ghost use Rattle.names.specs.Laws.Colons.{Passed};

// Whether none of the eight bytes from a place on is a colon. All eight are looked at, which
// compiles to one comparison. It is no `all` or `contains`, since these leave at the first colon.
fn has_no_colon(s: &[u8], at: usize) -> bool
    requires { at + 8 ≤ length s.now }
    ensures { Passed s.now at 8 result }
{
    (s[at] != b':')
        & (s[at + 1] != b':')
        & (s[at + 2] != b':')
        & (s[at + 3] != b':')
        & (s[at + 4] != b':')
        & (s[at + 5] != b':')
        & (s[at + 6] != b':')
        & (s[at + 7] != b':')
}

// Whether eight bytes stand from a place on, none of them a colon.
fn are_passed(s: &[u8], at: usize) -> bool
    requires { at ≤ length s.now }
    ensures { Passed s.now at 8 result }
{
    8 <= s.len() - at && has_no_colon(s, at)
}

// Where the part after the last `::` starts. Eight bytes without a colon are passed at once, since
// most names have few. An index is counted and no iterator goes over the bytes, since a step is of
// eight bytes or of one. With `s[i..].starts_with(b"::")` in place of the two tests, names of 5
// bytes take half as long again, and those of 13 a third more.
pub fn simple_start(s: &[u8]) -> usize
    ensures { (result ≤ length s.now) × (drop result s.now ≡ simple_name s.now) }
{
    let mut start = 0;
    let mut i = 0;
    while i < s.len() {
        if are_passed(s, i) {
            i += 8;
            continue;
        }
        let next = i + 1;
        if s.len() <= next {
            return start;
        }
        if s[i] != b':' {
            i = next;
            continue;
        }
        if s[next] != b':' {
            i = next;
            continue;
        }
        start = next + 1;
        i = next;
    }
    start
}

// The part after the last `::`, the whole where there is none.
pub fn simple_name(s: &[u8]) -> &[u8]
    ensures { result.now ≡ simple_name s.now }
{
    let start = simple_start(s);
    &s[start..]
}
