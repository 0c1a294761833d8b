// Lists the windows of a condition in sweeps of a period of so many seconds. Its arguments are a file and the period; without
// them it reads cond.dwc and takes a period of an hour. With any other number of arguments, or a period that is no number of 64
// bits, it reads nothing.
//
// It prints how many windows there are, and a line for each: where its condition starts, the whole sweeps, the seconds left, and
// then the window and what is left of it as times that people read.
#![tactic(auto)]

use std::env::Env;
use std::rt::Files;
use std::{fmt, io, str};

// An entry of a listing: where the window's condition starts in four bytes, then the whole sweeps
// and the seconds left in eight each.
const ENTRY: usize = 20;

fn main(rt: HostRuntime) -> io::Result<()> {
    called(&rt, &rt.stderr())
}

// The whole run, with what is printed and what is said of files and usage. The period is asked for
// first: without one no file is read.
fn called(rt: &(impl Files + Env + Print), err: &impl Print) -> io::Result<()> {
    let count = program::argument_count(rt);
    match given_period(rt, count).filter(|_| program::fits(count, 2)) {
        Some(period) => program::with_record(
            rt,
            err,
            1,
            b"cond.dwc",
            |record| run(rt, record, period),
        ),
        None => println!(err; "usage: windows [CONDITION PERIOD]"),
    }
}

// ---- the period

// The second of so many arguments; an hour where there is none.
fn given_period(env: &impl Env, count: usize) -> Option<u64> {
    if count <= 2 {
        return Some(3600);
    }
    let mut word = [0; 31];
    let n = program::argument(env, 2, &mut word);
    number(&word[..n])
}

// The number that decimal digits say, where there is one at least, and 64 bits hold it. The digits
// are asked for since `parse` takes a sign too.
fn number(text: &[u8]) -> Option<u64> {
    if !text.iter().all(u8::is_ascii_digit) {
        return None;
    }
    str::from_utf8(text).ok()?.parse().ok()
}

// ---- the listing

// The listing, and beside it the one of a period of a second, whose sweeps are the windows'
// seconds. There is room for any: a window has 19 bytes of a record at least.
fn run(out: &impl Print, condition: &[u8], period: u64) -> io::Result<()> {
    let mut listed = [0; 40960];
    let mut seconds = [0; 40960];
    let answer = dogwood::dogwood_windows(condition, period, &mut listed);
    if answer.number != 0 {
        return program::print_refusal(out, answer.number, answer.record);
    }
    dogwood::dogwood_windows(condition, 1, &mut seconds);
    println!(out; "windows {}", answer.count)?;
    let entries = listed.chunks_exact(ENTRY).zip(seconds.chunks_exact(ENTRY));
    for (entry, second) in entries.take(answer.count) {
        println!(out; "{}", Entry::read(entry, second))?;
    }
    Ok(())
}

// What an entry says, and the whole window in seconds.
#[derive(Clone, Copy)]
struct Entry {
    start: u32,
    sweeps: u64,
    left: Seconds,
    window: Seconds,
}

impl Entry {
    // The bytes of an entry, and of the same window's in the listing of a period of a second.
    fn read(entry: &[u8], second: &[u8]) -> Entry {
        Entry {
            start: program::u32_at(entry, 0),
            sweeps: program::u64_at(entry, 4),
            left: Seconds(program::u64_at(entry, 12)),
            window: Seconds(program::u64_at(second, 4)),
        }
    }
}

// Its line.
impl fmt::Display for Entry {
    fn fmt<W: fmt::Write>(&self, f: &mut fmt::Formatter<W>) -> fmt::Result {
        let left = self.left;
        write!(
            f,
            "{} {} {}: {}, left {left}",
            self.start, self.sweeps, left.0, self.window
        )
    }
}

// ---- times

// Seconds, as a time that people read.
#[derive(Clone, Copy)]
struct Seconds(u64);

// Days, hours, minutes and seconds, those that are not 0; no time is 0 s.
impl fmt::Display for Seconds {
    fn fmt<W: fmt::Write>(&self, f: &mut fmt::Formatter<W>) -> fmt::Result {
        let Seconds(all) = *self;
        if all == 0 {
            return f.write_str("0 s");
        }
        let mut before = "";
        for (n, unit) in [
            (all / 86400, "d"),
            (all % 86400 / 3600, "h"),
            (all % 3600 / 60, "min"),
            (all % 60, "s"),
        ] {
            if 0 < n {
                write!(f, "{before}{n} {unit}")?;
                before = " ";
            }
        }
        Ok(())
    }
}
