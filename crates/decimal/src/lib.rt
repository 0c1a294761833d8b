// Decimals: text read into a number of ten-thousandths, and such a number written back.
#![tactic(auto)]

mod field;
mod text;
mod write;

pub use field::read_decimal;
use names::Refusal;
pub use text::value_of;
pub use write::write_decimal;

// What a text is: a number of ten-thousandths; or what it is refused for, as malformed or as beyond
// 64 bits.
pub type Decimal = Result<i64, Refusal>;
