// A number of ten-thousandths, written: measured before the first byte is stored.
//
// There is no `Display`: the text goes to a place of lent bytes, and the contract says which bytes
// stand there.
ghost use Rattle.std.specs.Prelude.{◌≡◌, ◌+◌, ◌≤◌, length};
ghost use Rattle.names.specs.Writer.{Stored};
ghost use Rattle.reports.specs.Answers.{outcome_of};
ghost use Rattle.reports.specs.Placed.{placed};
ghost use Rattle.decimal.specs.Decimal.{places, last_digits, shown, written};

use names::Refusal;
use reports::{Answer, refuse, written};

// How many digits a number has without leading zeros.
fn places(n: u64) -> usize
    ensures { (result ≡ places n) × (result ≤ n + 1) }
{
    match n.checked_ilog10() {
        None => 1,
        Some(power) => power as usize + 1,
    }
}

// How long the text of a number is.
fn text_size(value: i64) -> usize
    ensures { result ≡ length (written value) }
{
    let whole = places(value.unsigned_abs() / 10000);
    if value.is_negative() {
        return whole + 6;
    }
    whole + 5
}

// The last digits of a number, so many of them. The digits before the last go first, so it
// calls itself.
fn put_digits(out: &mut [u8], at: usize, count: usize, n: u64) -> usize
    requires { at + count ≤ length out.old }
    ensures { Stored out.old at (last_digits count n) out.new result }
{
    if count == 0 {
        return at;
    }
    let next = put_digits(out, at, count - 1, n / 10);
    out[next] = (48 + n % 10) as u8;
    next + 1
}

// A number of ten-thousandths without a sign.
fn put_shown(out: &mut [u8], at: usize, n: u64) -> usize
    requires { at + length (shown n) ≤ length out.old }
    ensures { Stored out.old at (shown n) out.new result }
{
    let whole = n / 10000;
    let next = put_digits(out, at, places(whole), whole);
    out[next] = b'.';
    put_digits(out, next + 1, 4, n % 10000)
}

fn put_written(out: &mut [u8], value: i64) -> usize
    requires { length (written value) ≤ length out.old }
    ensures { Stored out.old 0 (written value) out.new result }
{
    let n = value.unsigned_abs();
    if value.is_negative() {
        out[0] = b'-';
        return put_shown(out, 1, n);
    }
    put_shown(out, 0, n)
}

// A number of ten-thousandths at the front of a lent buffer, whole or not at all.
pub fn write_decimal(value: i64, output: &mut [u8]) -> Answer
    ensures { outcome_of result output.new ≡ placed (written value) output.old }
{
    if output.len() < text_size(value) {
        return refuse(Refusal::NoSpace, 0);
    }
    let next = put_written(output, value);
    written(next)
}
