// One word of a message, written and measured.
ghost use Rattle.std.specs.Prelude.{◌≡◌, ◌++◌, ◌+◌, ◌<◌, ◌≤◌, length};
ghost use Rattle.names.specs.Writer.{Stored};
ghost use Rattle.reports.specs.Messages.{part, words};
ghost use Rattle.messages.specs.Joined.{Sized};
ghost use Rattle.messages.specs.Words.{word_text, word_of, WordStands, Stands};

use crate::joined::{joined_size, put_joined};
use crate::{Sentence, Word};
use types::Form;

// A word, written.
fn put_word<'a>(
    out: &mut [u8],
    at: usize,
    schema: &'a [u8],
    condition: &'a [u8],
    word: Word,
) -> usize
    requires word_stands { WordStands schema.now condition.now word }
    requires word_in_bounds { at + length (word_text schema.now condition.now word) ≤ length out.old }
    ensures { Stored out.old at (word_text schema.now condition.now word) out.new result }
{
    match word {
        Word::Nothing => at,
        Word::Name(p) => names::put(out, at, names::word(condition, p)),
        Word::Shown(t) => types::display(out, at, schema, condition, t),
        Word::Joined(p) => put_joined(out, at, condition, p),
    }
}

// The text before a word, and the word.
pub fn put_part<'a>(
    out: &mut [u8],
    at: usize,
    schema: &'a [u8],
    condition: &'a [u8],
    m: Sentence,
    i: usize,
) -> usize
    requires stands { Stands schema.now condition.now m }
    requires i_bound { (i < words m.which) × (i < 4) }
    requires i_in_bounds { at + length (part m.which i ++ word_text schema.now condition.now (word_of m i)) ≤ length out.old }
    ensures { Stored out.old at (part m.which i ++ word_text schema.now condition.now (word_of m i)) out.new result }
{
    let which = m.which;
    let next = reports::put_piece(out, at, which, i);
    put_word(out, next, schema, condition, m.words[i])
}

// How long a word is.
pub fn word_size<'a>(schema: &'a [u8], condition: &'a [u8], word: Word) -> usize
    requires { WordStands schema.now condition.now word }
    ensures { Sized (word_text schema.now condition.now word) result }
{
    match word {
        Word::Nothing => 0,
        Word::Name(p) => names::word(condition, p).len(),
        Word::Shown(t) => types::text_length(schema, condition, Form::Display, t),
        Word::Joined(p) => joined_size(condition, p),
    }
}
