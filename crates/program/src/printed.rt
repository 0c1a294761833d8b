// Refusals, and the reports of a run, printed.
use crate::{split_field, u32_at};
use std::io;

// The line of a refusal: its number and the record. A struct with a `Display` would hold this same
// line, and its three callers would put the two numbers into it.
pub fn print_refusal(out: &impl Print, number: u8, which: u8) -> io::Result<()> {
    println!(out; "refused {number} {which}")
}

// What a run answered: a refusal, 11 too, prints no report; else the count, then each report. The
// numbers come one by one, since the answers of the library are of two types, which this crate does
// not see. The reports are printed as they are met, and are no value with a `Display`: where one
// ends is found by going along it.
pub fn print_run(
    console: &impl Print,
    number: u8,
    which: u8,
    count: usize,
    out: &[u8],
) -> io::Result<()> {
    if number != 0 {
        return print_refusal(console, number, which);
    }
    println!(console; "reports {count}")?;
    let mut rest = out;
    for _ in 0..count {
        rest = print_report(console, rest)?;
    }
    Ok(())
}

// The report in front of some bytes: its start, its end, its message. What follows it is given. It
// is no struct with a `Display`: a message is bytes, and a `Display` writes text that was shown to
// be UTF-8.
fn print_report<'a>(console: &impl Print, report: &'a [u8]) -> io::Result<&'a [u8]> {
    let (message, rest) = split_field(report.get(8..).unwrap_or(&[]));
    print!(console; "{} {} ", u32_at(report, 0), u32_at(report, 4))?;
    console.write_all(message)?;
    console.write_all(b"\n")?;
    Ok(rest)
}
