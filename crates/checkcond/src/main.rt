// Checks a condition under a target record, and prints the reports. It reads schema.dws, cond.dwc and targets.dwt, or the files
// that its three arguments name; with any other number of arguments it reads nothing. Of the options before them `--strict` has
// the strict check made, `--own-bodies` gives each binder its own body, and `--visits` adds a line with the number of visits.
#![tactic(auto)]

use std::env::Env;
use std::io;
use std::rt::Files;

// The rules that options choose: bits and no enum, since `dogwood_check_with` takes them so.
const STRICT: u8 = 1;

const OWN_BODIES: u8 = 2;

// What the options say, and how many they are. Whether visits are printed is a yes or no that goes
// with none of the others.
#[derive(Clone, Copy, Default)]
struct Options {
    rules: u8,
    visits: bool,
    count: usize,
}

fn main(rt: HostRuntime) -> io::Result<()> {
    called(&rt, &rt.stderr())
}

// The whole run, with what is printed and what is said of files and usage.
fn called(rt: &(impl Files + Env + Print), err: &impl Print) -> io::Result<()> {
    let options = chosen(rt);
    let count = program::argument_count(rt).saturating_sub(options.count);
    if !program::fits(count, 3) {
        return println!(err;
            "usage: checkcond [--strict] [--own-bodies] [--visits] [SCHEMA CONDITION TARGETS]"
        );
    }
    read(rt, err, options)
}

// The options: each of the first three arguments may be one.
fn chosen(env: &impl Env) -> Options {
    let mut options = Options::default();
    let mut space = [0; 16];
    for i in 1..=3 {
        let n = program::argument(env, i, &mut space);
        match &space[..n] {
            b"--strict" => options.rules |= STRICT,
            b"--own-bodies" => options.rules |= OWN_BODIES,
            b"--visits" => options.visits = true,
            _ => return options,
        }
        options.count = i;
    }
    options
}

// The schema is read, then the condition, then the targets.
fn read(rt: &(impl Files + Env + Print), err: &impl Print, options: Options) -> io::Result<()> {
    let at = options.count;
    program::with_record(rt, err, at.saturating_add(1), b"schema.dws", |schema| {
        program::with_record(rt, err, at.saturating_add(2), b"cond.dwc", |condition| {
            program::with_record(rt, err, at.saturating_add(3), b"targets.dwt", |targets| {
                run(rt, options, schema, condition, targets)
            })
        })
    })
}

fn run<'a>(
    out: &impl Print,
    options: Options,
    schema: &'a [u8],
    condition: &'a [u8],
    targets: &'a [u8],
) -> io::Result<()> {
    let mut space = [0; 65536];
    let mut workspace = [0; 2048];
    let answer = dogwood::dogwood_check_with(
        options.rules,
        schema,
        condition,
        targets,
        &mut space,
        &mut workspace,
    );
    program::print_run(out, answer.number, answer.record, answer.count, &space)?;
    if options.visits {
        println!(out; "visits {}", answer.visits)?;
    }
    Ok(())
}
