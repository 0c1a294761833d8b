// The parts of an output: the status byte with the count of strings, and a string behind its length.
ghost use Rattle.std.specs.Prelude.{◌≡◌, ◌∷◌, ◌+◌, ◌≤◌, ◌<◌, length};
ghost use Rattle.names.specs.Fields.{digits};
ghost use Rattle.names.specs.Read.{word_at};
ghost use Rattle.names.specs.Writer.{Stored};
ghost use Rattle.types.specs.Types.{render};
ghost use Rattle.types.specs.Laws.Texts.{Small};
ghost use Rattle.types.specs.Meaning.{rich_of};
ghost use Rattle.lookup.specs.Lookup.{sized};
ghost use Rattle.lookup.specs.Places.{Long, Room};

use crate::Measured;
use types::{Form, Rich};

// The first three bytes.
pub fn put_start(out: &mut [u8], status: u8, count: usize) -> usize
    requires { (count < 65536) × (3 ≤ length out.old) }
    ensures { Stored out.old 0 (status ∷ digits 2 count) out.new result }
{
    out[0] = status;
    names::put_u16(out, 1, count)
}

// The string whose length byte stands at a position of a record: how long it is.
pub fn word_length(s: &[u8], at: usize) -> usize
    ensures { Long (word_at s.now at) result }
{
    names::word(s, at).len()
}

fn put_string(out: &mut [u8], at: usize, bytes: &[u8]) -> usize
    requires { (length bytes.now < 65536) × (at + length (sized bytes.now) ≤ length out.old) }
    ensures { Stored out.old at (sized bytes.now) out.new result }
{
    let next = names::put_u16(out, at, bytes.len());
    names::put(out, next, bytes)
}

// The same string, written.
pub fn put_word(out: &mut [u8], at: usize, s: &[u8], p: usize) -> usize
    requires { at + length (sized (word_at s.now p)) ≤ length out.old }
    ensures { Stored out.old at (sized (word_at s.now p)) out.new result }
{
    put_string(out, at, names::word(s, p))
}

// A type, rendered: how long it is.
pub fn type_length<'a>(s: &'a [u8], c: &'a [u8], t: Rich) -> usize
    requires { Small (rich_of s.now c.now t) }
    ensures { Long (render (rich_of s.now c.now t)) result }
{
    types::text_length(s, c, Form::Render, t)
}

// The same type, written.
pub fn put_type<'a>(out: &mut [u8], at: usize, s: &'a [u8], c: &'a [u8], t: Rich) -> usize
    requires small { Small (rich_of s.now c.now t) }
    requires t_in_bounds { at + length (sized (render (rich_of s.now c.now t))) ≤ length out.old }
    ensures { Stored out.old at (sized (render (rich_of s.now c.now t))) out.new result }
{
    let long = type_length(s, c, t);
    let next = names::put_u16(out, at, long);
    types::render(out, next, s, c, t)
}

// The measure of one string, of so many bytes.
pub fn one_string(long: usize) -> Measured
    requires { long < 1000 }
    ensures { result ≡ record { count = 1; size = 2 + long } }
{
    Measured {
        count: 1,
        size: 2 + long,
    }
}

// The measure with one string more.
pub fn one_more(m: Measured, long: usize) -> Measured
    requires { Room m long }
    ensures { result ≡ record { count = m.count + 1; size = m.size + (2 + long) } }
{
    Measured {
        count: m.count + 1,
        size: m.size + (2 + long),
    }
}
