// Names: the fields of a record, the classes of strings, the simple name, equality and order.
#![tactic(auto)]

mod bytewise;
mod classes;
mod fields;
mod refusal;
mod simple;
mod writer;

pub use bytewise::{compare, is_below, same, word_at};
pub use classes::in_class;
pub use fields::{
    byte_at, part_of, past_word, read_end, read_heading, read_path, read_start, read_string,
    read_strings, read_u8, read_u16, read_u32, refusal_number, u16_at, u32_at, wide, word,
    word_after,
};
pub use refusal::Refusal;
pub use simple::{simple_name, simple_start};
pub use writer::{put, put_u16, put_u32, put_u64};

// Where the next byte stands, or what the bytes are refused for.
pub type Read = Result<usize, Refusal>;

// What a string may be.
#[derive(Clone, Copy)]
pub enum Class {
    PathName,
    Plain,
    Identifier,
    PathOrNone,
}

// Where a byte of a path name stands: at the start of an identifier, inside one, between two
// colons; in no path name.
#[derive(Clone, Copy, PartialEq, Eq)]
pub enum Place {
    Start,
    Inside,
    Colon,
    Nowhere,
}

// So many things, one after another from a position.
#[derive(Clone, Copy)]
pub struct Row {
    pub count: usize,
    pub at: usize,
}
