// Replays the stored cases against the proved crates: each case's answer, and the whole buffer after it, are what the
// published Rust gave, but where a list's heading says otherwise. Prints a line for each list: how many cases, how many
// differ, and which is the first that does.
//
// The lists stand in data/; their headings say how they were made and how a case is to be read. A case is never copied: its
// records are parts of the list. Nothing is asked of a list: what no list has makes a case differ.
#![tactic(auto)]

mod cases;
mod history;

use cases::{Case, Cases, same_numbers, same_output};
use dogwood::{Answer, CheckAnswer};
use operands::Operand;
use std::rt::Files;
use std::{fmt, io};

// Room for a whole list.
const LIST_SPACE: usize = 2097152;

// How many cases, how many of them differ, which is the first that does.
#[derive(Clone, Copy, Default)]
struct Tally {
    cases: usize,
    differ: usize,
    first: Option<usize>,
}

// The number that the reader of a letter gives; none for a letter that no case has.
fn number(letter: u8, record: &[u8]) -> Option<u8> {
    match letter {
        b's' => Some(dogwood::dogwood_read_schema(record)),
        b'c' => Some(dogwood::dogwood_read_condition(record)),
        b't' => Some(dogwood::dogwood_read_targets(record)),
        b'p' => Some(dogwood::dogwood_read_path(record)),
        _ => None,
    }
}

// The check by rules, with few slots of workspace. The rules are bits, since `dogwood_check_with`
// takes them so: 1 is strict, and 2 gives each binder its own body.
fn ruled<'a>(rules: u8, a: &'a [u8], b: &'a [u8], c: &'a [u8], buffer: &mut [u8]) -> CheckAnswer {
    let mut workspace = [0; 8];
    dogwood::dogwood_check_with(rules, a, b, c, buffer, &mut workspace)
}

// The answer of an operation that makes no visits.
fn unvisited(answer: Answer) -> CheckAnswer {
    typecheck::with_visits(answer, 0)
}

// A number, and how many bytes were written.
fn written(number: u8, count: usize) -> CheckAnswer {
    CheckAnswer {
        number,
        record: 0,
        count,
        visits: 0,
    }
}

// The exported function of a letter, with a buffer of the size that its case asks for; none for
// what no case has. The letters are those of the lists, here as in `number`, `answered` and the
// calls of a history, and each is told apart in one function alone. A case and the buffer go on one
// by one: a struct of them would hold a `&mut` for one call.
fn exported(letter: u8, case: Case, buffer: &mut [u8]) -> Option<CheckAnswer> {
    let Case {
        first: a,
        second: b,
        third: c,
        ..
    } = case;
    let answer = match letter {
        b'k' => dogwood::dogwood_check(a, b, c, buffer),
        b'x' => ruled(1, a, b, c, buffer),
        b'o' => ruled(2, a, b, c, buffer),
        b'm' => unvisited(dogwood::dogwood_sums(a, buffer)),
        b'n' => unvisited(dogwood::dogwood_sums_with(2, a, buffer)),
        b'l' => unvisited(dogwood::dogwood_lookup(a, b, c, buffer)),
        b'w' => unvisited(dogwood::dogwood_windows(a, program::u64_at(b, 0), buffer)),
        b'h' => history::in_steps(a, b, c, buffer)?,
        _ => written(number(letter, a)?, 0),
    };
    Some(answer)
}

// The rendered type of an operand, and how long it is; none where the records give no type.
fn operand(case: Case, position: usize, which: Operand, buffer: &mut [u8]) -> Option<CheckAnswer> {
    match operands::operand_type(case.first, case.second, case.third, position, which, buffer) {
        Ok(operands::Answer::Written(n)) => Some(written(0, n)),
        Ok(operands::Answer::Untyped) => Some(written(0, 0)),
        Ok(operands::Answer::NoComparison) | Err(_) => None,
    }
}

// What the operation of a case answers; none for what no case has.
fn answered(case: Case, buffer: &mut [u8]) -> Option<CheckAnswer> {
    let size = names::u16_at(case.head, 5);
    match case.letter() {
        b'e' => operand(case, size, Operand::Left, buffer),
        b'f' => operand(case, size, Operand::Right, buffer),
        letter => exported(letter, case, buffer.get_mut(..size)?),
    }
}

// Whether a case goes as it says. No case asks for a larger buffer. The number 255, which no list
// has, stands in the place of an answer where there is none, and is compared as one.
fn agrees(case: Case) -> bool {
    let mut buffer = [0xA5; 8192];
    let answer = answered(case, &mut buffer).unwrap_or(written(255, 0));
    same_numbers(case.head, answer) && same_output(case.output, &buffer)
}

// One more case. None of the numbers comes near the largest.
fn counted(tally: Tally, agrees: bool) -> Tally {
    let cases = tally.cases.saturating_add(1);
    if agrees {
        return Tally { cases, ..tally };
    }
    Tally {
        cases,
        differ: tally.differ.saturating_add(1),
        first: tally.first.or(Some(cases)),
    }
}

// All cases of a list. A heading is none: it has the letter `#`.
fn all(list: &[u8]) -> Tally {
    let mut tally = Tally::default();
    for case in Cases(list) {
        if case.letter() != b'#' {
            tally = counted(tally, agrees(case));
        }
    }
    tally
}

// `12 cases, 0 differ`, and where some differ which is the first.
impl fmt::Display for Tally {
    fn fmt<W: fmt::Write>(&self, f: &mut fmt::Formatter<W>) -> fmt::Result {
        write!(f, "{} cases, {} differ", self.cases, self.differ)?;
        match self.first {
            Some(first) => write!(f, ", the first is case {first}"),
            None => Ok(()),
        }
    }
}

// Runs the cases of a file, and prints how they went behind its name.
fn replay(rt: &(impl Files + Print), err: &impl Print, file: &str) -> io::Result<()> {
    program::with_file::<LIST_SPACE, _>(
        rt,
        err,
        file.as_bytes(),
        |list| println!(rt; "{file}: {}", all(list)),
    )
}

fn main(rt: HostRuntime) -> io::Result<()> {
    let err = rt.stderr();
    for file in [
        "readers.cases",
        "check.cases",
        "strict.cases",
        "sums.cases",
        "lookup.cases",
        "windows.cases",
        "values.cases",
        "times.cases",
        "own.cases",
        "steps.cases",
        "terms.cases",
    ] {
        replay(&rt, &err, file)?;
    }
    Ok(())
}
