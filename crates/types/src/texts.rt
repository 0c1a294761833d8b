// The texts of types: written into a lent buffer, and measured.
//
// The schema and the condition are two parameters, as they are of `tag_bytes`, whose form document
// 01 names: a struct of the two would only be taken apart again before it.
//
// There is no `Display`: the text goes to a place of lent bytes, and the contract says which bytes
// stand there.
ghost use Rattle.std.specs.Prelude.{◌≡◌, ◌+◌, ◌≤◌, ◌<◌, length};
ghost use Rattle.names.specs.Writer.{Stored};
ghost use Rattle.types.specs.Types.{display, render};
ghost use Rattle.types.specs.Meaning.{base_of, rich_of};
ghost use Rattle.types.specs.Words.{text_by, type_word, word_of, repeated};

use crate::tags::tag_part;
use crate::{Base, Form, Rich};

// The scalars' words, in the order of `Scalar`: a constant table, as document 01 names it.
const WORDS: [&[u8]; 9] = [
    b"int",
    b"string",
    b"decimal",
    b"boolean",
    b"timepoint",
    b"object",
    b"never",
    b"datetime",
    b"duration",
];

// What opens and what closes a layer.
const OPEN: &[u8] = b"array<";

const CLOSE: &[u8] = b">";

// The word of a base, which its tag follows where it has one.
#[tactic(auto, unfolding(crate::specs::Words::words, names::specs::Text::text))]
fn word_of(form: Form, base: Base) -> &'static [u8]
    ensures { result.now ≡ type_word (word_of form base) }
{
    match (base, form) {
        (Base::Plain(a), _) => WORDS[a as usize],
        (Base::Tagged(_), Form::Display) => b"",
        (Base::Tagged(_), Form::Render) => b"entity:",
        (Base::Untagged, _) => b"entity",
        (Base::AnyArray, _) => b"array",
        (Base::MixedArray, Form::Display) => b"mixed-type array",
        (Base::MixedArray, Form::Render) => b"array<?>",
    }
}

// The word, `n` times: `n` is no length of it.
fn put_words(buf: &mut [u8], at: usize, word: &[u8], n: usize) -> usize
    requires { at + length (repeated n word.now) ≤ length buf.old }
    ensures { Stored buf.old at (repeated n word.now) buf.new result }
{
    let mut next = at;
    for _ in 0..n {
        next = names::put(buf, next, word);
    }
    next
}

// The base's word, and its tag.
fn put_base<'a>(
    buf: &mut [u8],
    at: usize,
    schema: &'a [u8],
    condition: &'a [u8],
    form: Form,
    base: Base,
) -> usize
    requires { at + length (text_by form (base_of schema.now condition.now base)) ≤ length buf.old }
    ensures { Stored buf.old at (text_by form (base_of schema.now condition.now base)) buf.new result }
{
    let next = names::put(buf, at, word_of(form, base));
    names::put(buf, next, tag_part(schema, condition, base))
}

fn put_type<'a>(
    buf: &mut [u8],
    at: usize,
    schema: &'a [u8],
    condition: &'a [u8],
    form: Form,
    t: Rich,
) -> usize
    requires { at + length (text_by form (rich_of schema.now condition.now t)) ≤ length buf.old }
    ensures { Stored buf.old at (text_by form (rich_of schema.now condition.now t)) buf.new result }
{
    let opened = put_words(buf, at, OPEN, t.layers);
    let named = put_base(buf, opened, schema, condition, form, t.base);
    put_words(buf, named, CLOSE, t.layers)
}

// `display` and `render` are two names for one path: each promises the text of a definition that
// other crates cite.

// Writes what a type is called in a message.
pub fn display<'a>(
    buf: &mut [u8],
    at: usize,
    schema: &'a [u8],
    condition: &'a [u8],
    t: Rich,
) -> usize
    requires { at + length (display (rich_of schema.now condition.now t)) ≤ length buf.old }
    ensures { Stored buf.old at (display (rich_of schema.now condition.now t)) buf.new result }
{
    put_type(buf, at, schema, condition, Form::Display, t)
}

// Writes a type in full.
pub fn render<'a>(
    buf: &mut [u8],
    at: usize,
    schema: &'a [u8],
    condition: &'a [u8],
    t: Rich,
) -> usize
    requires { at + length (render (rich_of schema.now condition.now t)) ≤ length buf.old }
    ensures { Stored buf.old at (render (rich_of schema.now condition.now t)) buf.new result }
{
    put_type(buf, at, schema, condition, Form::Render, t)
}

// The length of a type's text, where a number of 64 bits can hold it.
pub fn text_length<'a>(schema: &'a [u8], condition: &'a [u8], form: Form, t: Rich) -> usize
    requires { length (text_by form (rich_of schema.now condition.now t)) < 18446744073709551616 }
    ensures { result ≡ length (text_by form (rich_of schema.now condition.now t)) }
{
    let word = word_of(form, t.base);
    let tag = tag_part(schema, condition, t.base);
    t.layers * (OPEN.len() + CLOSE.len()) + (word.len() + tag.len())
}
