// The messages of the reports: one of the table's, with the words that it quotes, by where they
// stand; measured, and written.
//
// | module | what it has |
// |---|---|
// | joined | the segments of an annotation, joined: `put_joined`, `joined_size` |
// | words | one word: `put_word`, `word_size` |
// | whole | the whole message: `put_message`, `message_size` |
#![tactic(auto)]

mod joined;
mod whole;
mod words;

use reports::Message;
use types::Rich;
pub use whole::{message_size, put_message, say};

// A word that a message quotes: nothing; the string that stands at a place of the condition; a
// type, displayed; the segments of the annotation that stands at a place of the condition, joined.
#[derive(Clone, Copy)]
pub enum Word {
    Nothing,
    Name(usize),
    Shown(Rich),
    Joined(usize),
}

// A message: which one, and its words, of which it quotes as many as there are gaps between its
// texts.
#[derive(Clone, Copy)]
pub struct Sentence {
    pub which: Message,
    pub words: [Word; 4],
}
