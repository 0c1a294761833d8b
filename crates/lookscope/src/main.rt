// Looks a path under a scope up for one target, and prints how it resolves. It reads schema.dws, targets.dwt and path.dwp, or
// the files that its three arguments name; with any other number of arguments it reads nothing.
#![tactic(auto)]

use std::env::Env;
use std::io;
use std::rt::Files;

fn main(rt: HostRuntime) -> io::Result<()> {
    called(&rt, &rt.stderr())
}

// The whole run, with what is printed and what is said of files and usage: the schema is read, then
// the targets, then the path.
fn called(rt: &(impl Files + Env + Print), err: &impl Print) -> io::Result<()> {
    if !program::fits(program::argument_count(rt), 3) {
        return println!(err; "usage: lookscope [SCHEMA TARGETS PATH]");
    }
    program::with_record(rt, err, 1, b"schema.dws", |schema| {
        program::with_record(rt, err, 2, b"targets.dwt", |targets| {
            program::with_record(
                rt,
                err,
                3,
                b"path.dwp",
                |path| look(rt, schema, targets, path),
            )
        })
    })
}

// No output is longer than the space: at most 255 strings, each of at most 486 bytes, and a
// segment.
fn look<'a>(
    console: &impl Print,
    schema: &'a [u8],
    targets: &'a [u8],
    path: &'a [u8],
) -> io::Result<()> {
    let mut output = [0; 131072];
    let answer = dogwood::dogwood_lookup(schema, targets, path, &mut output);
    if answer.number != 0 {
        return program::print_refusal(console, answer.number, answer.record);
    }
    print_output(console, &output)
}

// The line of an output, by its status byte, whose numbers are those of `dogwood_status` in the C
// header: an enum of them would be made from the byte here and matched here, and nowhere else. Nor
// is an output a value with a `Display`, as its strings are bytes: a `Display` writes text that was
// shown to be UTF-8.
fn print_output(console: &impl Print, output: &[u8]) -> io::Result<()> {
    let count = names::u16_at(output, 1);
    let strings = output.get(3..).unwrap_or(&[]);
    match names::byte_at(output, 0) {
        0 => print_strings(console, b"resolved ", strings, count)?,
        1 => print_missing(console, strings, count)?,
        2 => print_strings(console, b"not a record: ", strings, count)?,
        3 => print_strings(console, b"ambiguous: ", strings, count)?,
        4 => console.write_all(b"unknown")?,
        _ => {},
    }
    console.write_all(b"\n")
}

// The segment, and the entity types behind it. Printed and no `Display`, as in `print_output`.
fn print_missing(console: &impl Print, strings: &[u8], count: usize) -> io::Result<()> {
    let (segment, types) = program::split_field(strings);
    console.write_all(b"missing ")?;
    console.write_all(segment)?;
    if 1 < count {
        print_strings(console, b": ", types, count - 1)?;
    }
    Ok(())
}

// Some words, and so many strings from the front of some bytes. Printed and no `Display`, as in
// `print_output`. What follows a string is known once it is read, so each turn hands it on.
fn print_strings(
    console: &impl Print,
    words: &[u8],
    strings: &[u8],
    count: usize,
) -> io::Result<()> {
    let mut before: &[u8] = b"";
    let mut left = strings;
    console.write_all(words)?;
    for _ in 0..count {
        let (string, rest) = program::split_field(left);
        console.write_all(before)?;
        console.write_all(string)?;
        before = b", ";
        left = rest;
    }
    Ok(())
}
