// Looks at the sums of a condition, and prints the reports. It reads cond.dwc, or the file that its argument names; with more
// arguments it reads nothing. The option `--own-bodies` before it gives each binder its own body.
#![tactic(auto)]

use std::env::Env;
use std::io;
use std::rt::Files;

fn main(rt: HostRuntime) -> io::Result<()> {
    called(&rt, &rt.stderr())
}

// The whole run, with what is printed and what is said of files and usage.
fn called(rt: &(impl Files + Env + Print), err: &impl Print) -> io::Result<()> {
    let own = own_bodies(rt);
    let options = usize::from(own);
    let count = program::argument_count(rt).saturating_sub(options);
    if !program::fits(count, 1) {
        return println!(err; "usage: sumcond [--own-bodies] [CONDITION]");
    }
    program::with_record(
        rt,
        err,
        options + 1,
        b"cond.dwc",
        |condition| run(rt, own, condition),
    )
}

// Whether the first argument is the option.
fn own_bodies(env: &impl Env) -> bool {
    let mut space = [0; 16];
    let n = program::argument(env, 1, &mut space);
    matches!(&space[..n], b"--own-bodies")
}

// The rules are a bit and no enum, since `dogwood_sums_with` takes them so.
fn run(out: &impl Print, own: bool, condition: &[u8]) -> io::Result<()> {
    let rules = if own { 2 } else { 0 };
    let mut space = [0; 65536];
    let answer = dogwood::dogwood_sums_with(rules, condition, &mut space);
    program::print_run(out, answer.number, answer.record, answer.count, &space)
}
