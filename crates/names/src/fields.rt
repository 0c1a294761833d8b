// The fields that the records share: numbers, strings of a class, paths, the heading; and the
// strings that stand at positions.
//
// Bytes and place stay two parameters, since a record is lent once and a place is a number in it.
ghost use Rattle.std.specs.Prelude.{◌≡◌, ◌+◌, ◌*◌, ◌<◌, ◌≤◌, length, get_or, take, drop, MatchResult};
ghost use Rattle.names.specs.Class.{class_of};
ghost use Rattle.names.specs.Fields.{bytes, u8, u16, u32, number, string_of, each, counted, heading, finished, whole};
ghost use Rattle.names.specs.Paths.{path_of};
ghost use Rattle.names.specs.Read.{ending, word_at};

use crate::bytewise::same;
use crate::classes::in_class;
use crate::{Class, Read, Refusal};

// `usize::from` with a promise more, that the number is below 256. Without it the proof of
// `messages::joined_size` would have to show this by hand of the byte at a place of its slice.
pub fn wide(b: u8) -> usize
    ensures value { result ≡ b }
    ensures upper_bound { result < 256 }
{
    usize::from(b)
}

// A string field of a class.
pub fn read_string(s: &[u8], at: usize, class: Class) -> Read
    ensures { result ≡ ending (string_of (class_of class) s.now at) }
{
    if s.len() <= at {
        return Err(Refusal::Cut);
    }
    let n = wide(s[at]);
    let b = at + 1;
    if s.len() - b < n {
        return Err(Refusal::Cut);
    }
    let e = b + n;
    if in_class(class, &s[b..e]) {
        Ok(e)
    } else {
        Err(Refusal::OutsideClass)
    }
}

// An 8-bit count of strings of a class, and the strings.
pub fn read_strings(s: &[u8], start: usize, class: Class) -> Read
    ensures { result ≡ ending (counted (each (string_of (class_of class))) s.now start) }
{
    if s.len() <= start {
        return Err(Refusal::Cut);
    }
    let mut at = start + 1;
    for _ in 0..wide(s[start]) {
        at = read_string(s, at, class)?;
    }
    Ok(at)
}

// A path: an 8-bit count of plain strings.
pub fn read_path(s: &[u8], at: usize) -> Read
    ensures { result ≡ ending (path_of s.now at) }
{
    read_strings(s, at, Class::Plain)
}

// The `len` bytes from `at` on, as far as there are so many.
pub fn part_of(s: &[u8], at: usize, len: usize) -> &[u8]
    ensures { result.now ≡ take len (drop at s.now) }
{
    let rest = &s[at.min(s.len())..];
    &rest[..len.min(rest.len())]
}

// The string whose length byte stands at `at`, as far as there are so many bytes.
pub fn word(s: &[u8], at: usize) -> &[u8]
    ensures result_value { result.now ≡ word_at s.now at }
    ensures result_len_bound { length result.now ≤ 255 }
{
    let Some(len) = s.get(at) else {
        return &[];
    };
    part_of(s, at + 1, wide(*len))
}

// Where the byte after the string at `at` stands.
pub fn past_word(s: &[u8], at: usize) -> usize
    requires { at + 1 + get_or s.now at 0 ≤ length s.now }
    ensures { result ≡ at + 1 + get_or s.now at 0 }
{
    at + 1 + wide(s[at])
}

// The string that stands after the one at `at`.
pub fn word_after(s: &[u8], at: usize) -> &[u8]
    ensures { result.now ≡ word_at s.now (at + 1 + get_or s.now at 0) }
{
    let Some(len) = s.get(at) else {
        return &[];
    };
    word(s, at + 1 + wide(*len))
}

// The byte at `at`, 0 past the end.
pub fn byte_at(s: &[u8], at: usize) -> usize
    ensures value { result ≡ get_or s.now at 0 }
    ensures upper_bound { result < 256 }
{
    s.get(at).map_or(0, |b| wide(*b))
}

// The 16-bit number at `at`, of the bytes that there are.
pub fn u16_at(s: &[u8], at: usize) -> usize
    ensures { result ≡ number 0 (take 2 (drop at s.now)) }
{
    match part_of(s, at, 2) {
        [high, low] => usize::from(u16::from_be_bytes([*high, *low])),
        [only] => wide(*only),
        _ => 0,
    }
}

// So many bytes.
fn read_bytes(s: &[u8], at: usize, n: usize) -> Read
    ensures { result ≡ ending (bytes n s.now at) }
{
    if s.len() < at {
        return Err(Refusal::Cut);
    }
    if s.len() - at < n {
        return Err(Refusal::Cut);
    }
    Ok(at + n)
}

// An 8-bit number. This one and those of 16 and 32 bits are names for so many bytes: each promises
// the definition that the records cite.
pub fn read_u8(s: &[u8], at: usize) -> Read
    ensures { result ≡ ending (u8 s.now at) }
{
    read_bytes(s, at, 1)
}

// The 32-bit number at `at`.
pub fn u32_at(s: &[u8], at: usize) -> u32
    requires { at + 4 ≤ length s.now }
    ensures { result ≡ number 0 (take 4 (drop at s.now)) }
{
    u32::from_be_bytes([s[at], s[at + 1], s[at + 2], s[at + 3]])
}

pub fn read_u16(s: &[u8], at: usize) -> Read
    ensures { result ≡ ending (u16 s.now at) }
{
    read_bytes(s, at, 2)
}

pub fn read_u32(s: &[u8], at: usize) -> Read
    ensures { result ≡ ending (u32 s.now at) }
{
    read_bytes(s, at, 4)
}

// A mark and a version that is known, from 1 to the newest, at the front of a record.
pub fn read_heading(s: &[u8], mark: &[u8], newest: usize) -> Read
    ensures { result ≡ ending (heading mark.now newest s.now 0) }
{
    let n = mark.len();
    if s.len() < n {
        return Err(Refusal::Cut);
    }
    if same(&s[..n], mark) {
        let m = read_u16(s, n)?;
        let number = u16_at(s, n);
        if number == 0 {
            return Err(Refusal::OtherVersion);
        }
        if number <= newest {
            return Ok(m);
        }
        return Err(Refusal::OtherVersion);
    }
    Err(Refusal::OtherMark)
}

// The front of a record: at most 32,768 bytes, a mark and a version that is known.
pub fn read_start(s: &[u8], mark: &[u8], newest: usize) -> Read
    ensures { result ≡ ending (whole (heading mark.now newest) s.now) }
{
    if 32768 < s.len() {
        return Err(Refusal::TooLong);
    }
    read_heading(s, mark, newest)
}

// The end of a record: no byte stands at `at` or behind it.
pub fn read_end(s: &[u8], at: usize) -> Read
    ensures { result ≡ ending (finished at s.now at) }
{
    if at == s.len() {
        return Ok(at);
    }
    Err(Refusal::BytesAfter)
}

// The number of the refusal, 0 for none. It is a number, and no Option, since the C interface
// answers so. An error is whatever becomes a byte: a refusal becomes the documents' number of it,
// and a byte comes back itself.
pub fn refusal_number<E: Into<u8>>(read: Result<usize, E>) -> u8
    ensures { MatchResult read (λ _. result ≡ 0) (λ refusal. E.converts refusal result) }
{
    match read {
        Ok(_) => 0,
        Err(refusal) => refusal.into(),
    }
}
