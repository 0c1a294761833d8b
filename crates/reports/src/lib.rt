// Reports in a lent buffer: each a message with its start and end, as many whole ones as fit.
//
// The buffer, the table of its reports and the state stay parameters of their own, and what holds
// of them stays a clause. A struct that kept the two lent parts would have to promise in each
// function that they are still the same parts when it returns: two clauses more for the one that
// would go, and the caller, who lends them for one call at a time, would make it anew for each. The
// functions that only look at the buffer are called with these parts too, so that a struct for them
// alone would be made anew at each of their calls.
#![tactic(auto)]

ghost use Rattle.std.specs.Prelude.{◌<◌, length};

mod buffer;
mod earlier;
mod pieces;
mod slots;
mod standing;
mod tabled;

pub use buffer::{
    answer_of, append_report, has_room, one_more, put_header, refuse, refused, stopped, written,
};
pub use pieces::{put_piece, text_size, word_count};
pub use slots::clear;
pub use standing::{refile, resume};
pub use tabled::push;

// What the buffer holds: the bytes used, the reports in them, and whether one did not fit. (The
// flag is no Option's shape: the bytes and the reports stand and count on where one did not fit.)
#[derive(Clone, Copy, Default)]
pub struct State {
    pub used: usize,
    pub count: usize,
    pub full: bool,
}

// What is reported: a message with its start and end. A report gives its length in 16 bits.
#[derive(Clone, Copy)]
pub struct Report<'a> {
    pub start: u32,
    pub end: u32,
    pub message: &'a [u8],
    ghost short: { length message.now < 65536 },
}

// What stands before a report's message: its start, its end, and the message's length.
#[derive(Clone, Copy)]
struct Header {
    start: u32,
    end: u32,
    long: usize,
}

// A buffer that is handed back: what it holds, and how many of its bytes may be used.
#[derive(Clone, Copy)]
pub struct Resumed {
    pub state: State,
    pub size: usize,
}

// What a run answers: the number of a refusal, 0 for none; the record that it is about, 0 for none;
// how many reports the buffer holds. (It crosses the C interface, so it has these numbers, and
// neither an Option nor a Result.)
#[repr(C)]
#[derive(Clone, Copy)]
pub struct Answer {
    pub number: u8,
    pub record: u8,
    pub count: usize,
}

// The messages, each a `format!` of the Rust.
#[derive(Clone, Copy)]
pub enum Message {
    WrongArgument,
    WrongTimepoint,
    NotNumeric,
    UnlikeTypes,
    WildcardInside,
    NotLong,
    CannotSum,
    CannotSumTimepoint,
    CannotSumDecimal,
}
