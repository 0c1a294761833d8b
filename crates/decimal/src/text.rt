// The text of a decimal: whether it is well formed, and its value.
ghost use Rattle.std.specs.Prelude.{◌≡◌, ◌-◌, ◌<◌, pos, neg_ℤ};
ghost use Rattle.names.specs.Lists.{every};
ghost use Rattle.decimal.specs.Decimal.{digit, digit_at, minus, unsigned, fraction, behind_digit, begins_with_digit, well_formed, with_fraction, ten_thousandths, signed, held, value_of, decimal_of};

use crate::Decimal;
use names::Refusal;

fn is_digit(b: u8) -> bool
    ensures { result ≡ digit b }
{
    b.is_ascii_digit()
}

fn are_digits(w: &[u8]) -> bool
    ensures { result ≡ every digit w.now }
{
    w.iter().all(|b| is_digit(*b))
}

// One to four digits.
fn is_fraction(w: &[u8]) -> bool
    ensures { result ≡ fraction w.now }
{
    match w.len() {
        1..=4 => are_digits(w),
        _ => false,
    }
}

// Digits, a point and the digits after it, where the first digit is known to be one.
fn is_unsigned(w: &[u8]) -> bool
    ensures { result ≡ behind_digit w.now }
{
    for (i, &b) in w.iter().enumerate() {
        if b == b'.' {
            return is_fraction(&w[i + 1..]);
        }
        if !is_digit(b) {
            return false;
        }
    }
    false
}

fn begins_with_digit(w: &[u8]) -> bool
    ensures { result ≡ begins_with_digit w.now }
{
    match w {
        [] => false,
        [b, behind @ ..] => is_digit(*b) && is_unsigned(behind),
    }
}

fn has_minus(w: &[u8]) -> bool
    ensures { result ≡ minus w.now }
{
    w.starts_with(b"-")
}

// The text without a minus in front.
fn without_minus(w: &[u8]) -> &[u8]
    ensures { result.now ≡ unsigned w.now }
{
    w.strip_prefix(b"-").unwrap_or(w)
}

// A digit's value; 0 for the bytes below the digits.
fn digit_of(b: u8) -> u64
    ensures { (result ≡ b - 48) × (result < 208) }
{
    b.saturating_sub(b'0') as u64
}

// The digit at an index, 0 behind the end.
fn digit_at(w: &[u8], i: usize) -> u64
    ensures { (result ≡ digit_at w.now i) × (result < 208) }
{
    match w.get(i) {
        None => 0,
        Some(&b) => digit_of(b),
    }
}

fn with_fraction(n: u64, w: &[u8]) -> u64
    requires { n < 1000000000000000 }
    ensures { result ≡ with_fraction n w.now }
{
    n * 10000
        + (digit_at(w, 0) * 1000 + digit_at(w, 1) * 100 + digit_at(w, 2) * 10 + digit_at(w, 3))
}

// So many ten-thousandths below zero.
fn negated(n: u64) -> Decimal
    ensures { result ≡ held (neg_ℤ (pos n)) }
{
    0_i64
        .checked_sub_unsigned(n)
        .ok_or(Refusal::DecimalOutOfRange)
}

fn with_sign(negative: bool, n: u64) -> Decimal
    ensures { result ≡ held (signed negative n) }
{
    if negative {
        return negated(n);
    }
    i64::try_from(n).or(Err(Refusal::DecimalOutOfRange))
}

// The value of a text that is well formed, its minus taken off. From 10^15 on a whole part is
// beyond 64 bits, whatever follows it.
fn value_behind_sign(negative: bool, w: &[u8]) -> Decimal
    ensures { result ≡ held (signed negative (ten_thousandths 0 w.now)) }
{
    let mut n = 0;
    for (i, &b) in w.iter().enumerate() {
        if b == b'.' {
            return with_sign(negative, with_fraction(n, &w[i + 1..]));
        }
        n = n * 10 + digit_of(b);
        if 1000000000000000 <= n {
            return Err(Refusal::DecimalOutOfRange);
        }
    }
    with_sign(negative, n * 10000)
}

// What a text is: a value, or malformed, or beyond 64 bits.
pub fn value_of(w: &[u8]) -> Decimal
    ensures { result ≡ decimal_of w.now }
{
    let negative = has_minus(w);
    let digits = without_minus(w);
    if begins_with_digit(digits) {
        return value_behind_sign(negative, digits);
    }
    Err(Refusal::MalformedDecimal)
}
