// What bytes or a request are refused for: the refusals of documents 01 and 02, which number them.
ghost use Rattle.std.specs.Prelude.{◌≡◌};
ghost use Rattle.names.specs.Fields.{number_of};

// The bytes are above 32,768; they end before a field does; the mark is another; the version is
// another; a choice byte is undefined; a string lies outside its class; something stands at level
// 33; names do not ascend; an aggregate stands below an array; bytes follow the end. The output is
// longer than the buffer; the position is not in the list of targets; a window is below 0 or above
// 2^63 - 1 seconds; the period of a listing is 0; a decimal's text is malformed; it is well formed,
// but beyond 64 bits. The list of targets takes no more; the target to be withdrawn is not pending.
#[derive(Clone, Copy, Debug, PartialEq, Eq)]
pub enum Refusal {
    TooLong = 1,
    Cut = 2,
    OtherMark = 3,
    OtherVersion = 4,
    UndefinedChoice = 5,
    OutsideClass = 6,
    TooDeep = 7,
    NotAscending = 8,
    AggregateBelowArray = 9,
    BytesAfter = 10,
    NoSpace = 11,
    NoSuchTarget = 12,
    WindowOutOfRange = 13,
    NoPeriod = 14,
    MalformedDecimal = 15,
    DecimalOutOfRange = 16,
    ListFull = 18,
    NotPending = 19,
}

// It is the number that the documents give the refusal.
impl From<Refusal> for u8 {
    ghost from_gives = { λ refusal number. number ≡ number_of refusal };

    fn from(refusal: Refusal) -> u8 {
        refusal as u8
    }
}
