// The segments of an annotation, joined by `::`.
ghost use Rattle.std.specs.Prelude.{◌≡◌, true, ◌∷◌, ◌+◌, ◌<◌, ◌≤◌, length};
ghost use Rattle.names.specs.Names.{identifier, joined};
ghost use Rattle.names.specs.Fields.{string_of};
ghost use Rattle.names.specs.Read.{is_row, row_in};
ghost use Rattle.names.specs.Writer.{Stored};
ghost use Rattle.nodes.specs.Parts.{segments_in, SegmentsHere};
ghost use Rattle.messages.specs.Joined.{behind, Sized};

use names::{Class, Read};

// `::` and a segment.
fn put_behind(out: &mut [u8], at: usize, segment: &[u8]) -> usize
    requires { at + (2 + length segment.now) ≤ length out.old }
    ensures { Stored out.old at (58 ∷ 58 ∷ segment.now) out.new result }
{
    let next = names::put(out, at, b"::");
    names::put(out, next, segment)
}

// So many segments, each behind `::`.
fn put_segments(out: &mut [u8], start: usize, s: &[u8], count: usize, first: usize) -> usize
    requires first_value { is_row (string_of identifier) s.now count first ≡ true }
    requires first_in_bounds { start + length (behind (row_in (string_of identifier) s.now count first)) ≤ length out.old }
    ensures { Stored out.old start (behind (row_in (string_of identifier) s.now count first)) out.new result }
{
    let mut next = start;
    let mut at = first;
    for _ in 0..count {
        next = put_behind(out, next, names::word(s, at));
        at = names::past_word(s, at);
    }
    next
}

// The segments of an annotation, joined.
pub fn put_joined(out: &mut [u8], at: usize, s: &[u8], segments: usize) -> usize
    requires segments_here { SegmentsHere s.now segments }
    requires segments_in_bounds { at + length (joined (segments_in s.now segments)) ≤ length out.old }
    ensures { Stored out.old at (joined (segments_in s.now segments)) out.new result }
{
    let first = segments + 1;
    let count = names::wide(s[segments]);
    let next = names::put(out, at, names::word(s, first));
    put_segments(out, next, s, count - 1, names::past_word(s, first))
}

// The bytes between two places with so many strings, each behind its length byte, once `::` stands
// between the strings in place of these bytes.
fn size_between(first: usize, end: usize, count: usize) -> usize
    requires { (first + count ≤ end) × (0 < count) × (end ≤ 32768) }
    ensures { result + 2 + first ≡ end + count }
{
    (end - first - 1) + (count - 1)
}

// How many bytes the joined segments have: they stand one behind the other, each behind its length
// byte, so the two places tell and no length is added up.
pub fn joined_size(s: &[u8], segments: usize) -> usize
    requires segments_here { SegmentsHere s.now segments }
    requires s_len_bound { length s.now ≤ 32768 }
    ensures { Sized (joined (segments_in s.now segments)) result }
{
    let first = segments + 1;
    let count = names::wide(s[segments]);
    let read = names::read_strings(s, segments, Class::Identifier);
    // An annotation of an accepted record is read once more, so that the `else` is never met.
    let Ok(end) = read else {
        return 0;
    };
    size_between(first, end, count)
}
