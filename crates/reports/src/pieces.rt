// The fixed texts of the messages.
ghost use Rattle.std.specs.Prelude.{◌≡◌, ◌+◌, ◌≤◌, length};
ghost use Rattle.names.specs.Writer.{Stored};
ghost use Rattle.reports.specs.Messages.{part, text_size, words};

use crate::Message;
use names::put;

// The texts between the words that a message quotes, a table for each message.
const WRONG_ARGUMENT: [&[u8]; 5] = [
    b"argument `",
    b"` of `",
    b"` expects `",
    b"` but got `",
    b"`",
];

const WRONG_TIMEPOINT: [&[u8]; 5] = [
    b"`tp(",
    b")` binds `",
    b"` to the current timepoint, but `",
    b"` is declared `",
    b"`; a `tp` variable must be declared `Timepoint`",
];

const NOT_NUMERIC: [&[u8]; 3] = [
    b"comparison requires numeric operands on both sides, got `",
    b"` and `",
    b"`",
];

const UNLIKE_TYPES: [&[u8]; 3] = [
    b"equality requires both sides to have the same type, got `",
    b"` and `",
    b"`",
];

const WILDCARD_INSIDE: [&[u8]; 1] = [
    b"a wildcard (`*` / `_`) cannot appear inside an arithmetic expression; \
      it resolves to no value, so the whole guard would be silently false",
];

const NOT_LONG: [&[u8]; 2] = [
    b"arithmetic operates only on `Long` values, but this operand has type `",
    b"`",
];

const CANNOT_SUM: [&[u8]; 4] = [
    b"cannot sum `",
    b"`: sum requires a `Long` summand, but `",
    b"` is `",
    b"`.",
];

const CANNOT_SUM_TIMEPOINT: [&[u8]; 3] = [
    b"cannot sum `",
    b"`: sum requires a `Long` summand, but `",
    b"` is `Timepoint`. Timepoints are ordinal positions, not quantities \xe2\x80\x94 \
      use a Timepoint in the `for (\xe2\x80\xa6)` binders to keep per-timepoint rows, \
      not as the value being summed.",
];

const CANNOT_SUM_DECIMAL: [&[u8]; 3] = [
    b"cannot sum `",
    b"`: sum requires a `Long` summand, but `",
    b"` is `Decimal`. Dogwood arithmetic operates only on `Long` values, not decimals.",
];

// The numbers of a message are a match each: an array of them by a message's rank would not show
// which number is whose, and the sizes are not added up anew for each message that is measured.

// How many bytes a message's texts have: with those of its words, the message's length.
pub fn text_size(which: Message) -> usize
    ensures { result ≡ text_size which }
{
    match which {
        Message::WrongArgument => 39,
        Message::WrongTimepoint => 109,
        Message::NotNumeric => 65,
        Message::UnlikeTypes => 65,
        Message::WildcardInside => 137,
        Message::NotLong => 71,
        Message::CannotSum => 59,
        Message::CannotSumTimepoint => 223,
        Message::CannotSumDecimal => 131,
    }
}

// How many words a message quotes, one between each two texts.
pub fn word_count(which: Message) -> usize
    ensures { result ≡ words which }
{
    match which {
        Message::WrongArgument => 4,
        Message::WrongTimepoint => 4,
        Message::NotNumeric => 2,
        Message::UnlikeTypes => 2,
        Message::WildcardInside => 0,
        Message::NotLong => 1,
        Message::CannotSum => 3,
        Message::CannotSumTimepoint => 2,
        Message::CannotSumDecimal => 2,
    }
}

// A text of a message.
#[tactic(auto, unfolding(crate::specs::Messages::parts, names::specs::Text::text))]
fn text_of(which: Message, i: usize) -> &'static [u8]
    requires { i ≤ words which }
    ensures { result.now ≡ part which i }
{
    match which {
        Message::WrongArgument => WRONG_ARGUMENT[i],
        Message::WrongTimepoint => WRONG_TIMEPOINT[i],
        Message::NotNumeric => NOT_NUMERIC[i],
        Message::UnlikeTypes => UNLIKE_TYPES[i],
        Message::WildcardInside => WILDCARD_INSIDE[i],
        Message::NotLong => NOT_LONG[i],
        Message::CannotSum => CANNOT_SUM[i],
        Message::CannotSumTimepoint => CANNOT_SUM_TIMEPOINT[i],
        Message::CannotSumDecimal => CANNOT_SUM_DECIMAL[i],
    }
}

// Writes a text of a message.
pub fn put_piece(out: &mut [u8], at: usize, which: Message, i: usize) -> usize
    requires { (i ≤ words which) × (at + length (part which i) ≤ length out.old) }
    ensures { Stored out.old at (part which i) out.new result }
{
    put(out, at, text_of(which, i))
}
