// Prints records as indented text: each part with the byte where it starts, what it is and its value; or with what number a
// record is refused, why, and where that shows. Its arguments name the files.
//
// A record is known by its mark. The proved readers say whether it is accepted and, by `offence`, where a refused one shows its
// offence; an accepted one is walked by the layout, and the place that the walk comes to is held against the record's length.
#![tactic(auto)]

mod layout;
mod refusal;

use std::env::Env;
use std::io;
use std::rt::Files;

fn main(rt: HostRuntime) -> io::Result<()> {
    called(&rt, &rt.stderr())
}

// The whole run, with what is printed and what is said of files: the files that the arguments name,
// one after another.
fn called(rt: &(impl Files + Env + Print), err: &impl Print) -> io::Result<()> {
    let count = program::argument_count(rt);
    if count <= 1 {
        return println!(rt; "usage: showrecord FILE..");
    }
    for i in 1..count {
        argument(rt, err, i)?;
    }
    Ok(())
}

// One file: its name, then the record that it is, walked or refused.
fn argument(rt: &(impl Files + Env + Print), err: &impl Print, i: usize) -> io::Result<()> {
    let mut space = [0; 4096];
    let n = program::argument(rt, i, &mut space);
    let name = &space[..n];
    program::with_file::<{ program::RECORD_SPACE }, _>(rt, err, name, |bytes| {
        rt.write_all(name)?;
        show(rt, bytes)
    })
}

fn show(out: &impl Print, bytes: &[u8]) -> io::Result<()> {
    let kind = offence::kind_of(bytes);
    match offence::number_of(kind, bytes) {
        0 => layout::show(out, bytes, kind),
        number => refusal::show(out, bytes, kind, number),
    }
}
