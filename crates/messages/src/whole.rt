// A message, measured and written: its texts and its words by turns.
//
// The two records and the sentence are three parameters. A struct of them, with `Stands` as its
// ghost field, would be made by each of the two callers for one call, or for a measure and a call,
// so that the fact would be shown at the same places; and the words would take it apart again,
// since a type's text is asked of the two records (`types::display`).
//
// There is no `Display`: the text goes to a place of lent bytes, and the contract says which bytes
// stand there.
ghost use Rattle.std.specs.Prelude.{◌≡◌, ◌+◌, ◌≤◌, length};
ghost use Rattle.names.specs.Writer.{Stored};
ghost use Rattle.messages.specs.Words.{text_of, Stands, say};

use crate::words::{put_part, word_size};
use crate::{Sentence, Word};
use reports::Message;

// A message is said.
pub fn say(which: Message, first: Word, second: Word, third: Word, fourth: Word) -> Option<Sentence>
    ensures { result ≡ say which first second third fourth }
{
    Some(Sentence {
        which,
        words: [first, second, third, fourth],
    })
}

pub fn put_message<'a>(
    out: &mut [u8],
    start: usize,
    schema: &'a [u8],
    condition: &'a [u8],
    m: Sentence,
) -> usize
    requires stands { Stands schema.now condition.now m }
    requires m_in_bounds { start + length (text_of schema.now condition.now m) ≤ length out.old }
    ensures { Stored out.old start (text_of schema.now condition.now m) out.new result }
{
    let which = m.which;
    let count = reports::word_count(which);
    let mut at = start;
    for i in 0..count {
        at = put_part(out, at, schema, condition, m, i);
    }
    reports::put_piece(out, at, which, count)
}

pub fn message_size<'a>(schema: &'a [u8], condition: &'a [u8], m: Sentence) -> usize
    requires { Stands schema.now condition.now m }
    ensures { result ≡ length (text_of schema.now condition.now m) }
{
    let which = m.which;
    let count = reports::word_count(which);
    let mut size = reports::text_size(which);
    for word in &m.words[..count] {
        size += word_size(schema, condition, *word);
    }
    size
}
