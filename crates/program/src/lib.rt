// What the programs share: a record read from a file into space of its own, and what a run answers
// printed.
#![tactic(auto)]

mod fields;
mod printed;

ghost use Rattle.std.specs.Prelude.{◌≡◌, ◌^◌, ◌<◌, ◌≤◌, None, Some, length, take};
ghost use Rattle.std.specs.Fn.{FnOnceReturnsAt};
ghost use Rattle.std.specs.Io.KnownBytes.{Consumes};
ghost use Rattle.program.specs.Program.{GoneOn, Loaded, Within, Took, contented};

pub use fields::{split_field, u32_at, u64_at};
pub use printed::{print_refusal, print_run};
use std::env::{Env, FillError};
use std::io::{Cursor, Read, Write};
use std::rt::Files;
use std::{fs, io, str};

// Room for a record and more: a file that is longer than a record may be is refused as one.
pub const RECORD_SPACE: usize = 40960;

// Whether a program that reads so many files can run with so many arguments, its own name among them.
#[tactic(auto, unfolding(crate::specs::Program::contented))]
pub fn fits(count: usize, files: usize) -> bool
    ensures { result ≡ contented count files }
{
    count <= 1 || count - 1 == files
}

// ---- arguments

// How many arguments the program was started with, its own name among them.
pub fn argument_count(env: &impl Env) -> usize {
    (0..usize::MAX)
        .find(|&i| !has_argument(env, i))
        .unwrap_or(usize::MAX)
}

// Whether there is an argument of this number: one that does not fit is there too.
fn has_argument(env: &impl Env, i: usize) -> bool {
    !matches!(env.arg(i, &mut [0; 1]), Err(FillError::NotPresent))
}

// Puts an argument at the front of a space, and gives how many bytes it has, as std's `arg` does.
// It has none where there is no such argument, or where it is longer than the space: a number and
// no Option, since no caller tells an empty argument from none.
pub fn argument(env: &impl Env, i: usize, space: &mut [u8]) -> usize
    ensures { Within space.new (Some result) }
{
    env.arg(i, space).unwrap_or(0)
}

// ---- files

// What the system says of an error, without the number that std writes behind it.
fn reason(text: &[u8]) -> &[u8] {
    let Ok(said) = str::from_utf8(text) else {
        return text;
    };
    match said.rsplit_once(" (os error ") {
        Some((words, _)) => words.as_bytes(),
        None => text,
    }
}

// A line: what failed, and the reason. Where it goes and the name go on one by one, here and below:
// the first is of the caller's type, so that a struct of the two would be generic for two fields.
fn say(err: &impl Print, name: &[u8], error: &io::Error) -> io::Result<()> {
    let mut said = Cursor::new([0u8; 320]);
    write!(said, "{error}")?;
    let n = said.position() as usize;
    let text = said.into_inner();
    err.write_all(name)?;
    err.write_all(b": ")?;
    err.write_all(reason(names::part_of(&text, 0, n)))?;
    err.write_all(b"\n")
}

// A file that cannot be read, which is said. Where it cannot be said either, nobody is left to tell.
fn unread(err: &impl Print, name: &[u8], error: &io::Error) -> Option<usize>
    ensures { result ≡ None }
{
    let _ = say(err, name, error);
    None
}

// Opens the file of a name. The names of std's files are UTF-8.
fn open<F: Files>(files: &F, name: &[u8]) -> io::Result<F::File> {
    match str::from_utf8(name) {
        Ok(path) => fs::open(files, path),
        Err(_) => Err(io::Error::new(io::ErrorKind::InvalidInput, "the name is not UTF-8")),
    }
}

// Reads until the space is full, the file ends or a read fails, and gives how many bytes it put at
// the front of the space. The loop stays: std's `read_to_end` fills a `Vec`, and `read_exact` wants
// the whole space filled.
fn read_full<F: Read>(file: &mut F, space: &mut [u8]) -> usize
    ensures bound { result ≤ length space.new }
    ensures bytes { Consumes (F.remaining file.old) (F.remaining file.new) (take result space.new) }
{
    let mut done = 0;
    while done < space.len() {
        match file.read(&mut space[done..]) {
            Ok(0) => return done,
            Ok(n) => done += n,
            Err(_) => return done,
        }
    }
    done
}

// What a first read gives, and what more the file has. A first read that fails is said.
fn read_on<F: Read>(file: &mut F, err: &impl Print, name: &[u8], space: &mut [u8]) -> Option<usize>
    ensures within { Within space.new result }
    ensures bytes { Took (F.remaining file.old) (F.remaining file.new) space.new result }
{
    match file.read(space) {
        Ok(n) => Some(n + read_full(file, &mut space[n..])),
        Err(error) => unread(err, name, &error),
    }
}

// Reads the file of a name, as far as the space reaches, and gives how many bytes it put at the
// front of it, as std's `read` does. A file that cannot be read is said, with the reason. What a
// file has no contract can say, as std's of `read` does not: its bytes lie in the space.
pub fn load(files: &impl Files, err: &impl Print, name: &[u8], space: &mut [u8]) -> Option<usize>
    ensures { Within space.new result }
{
    match open(files, name) {
        Ok(mut file) => read_on(&mut file, err, name, space),
        Err(error) => unread(err, name, &error),
    }
}

// The same of the file that an argument names, or of another where there is no such argument. The
// space of the name is free again before a program goes on.
pub fn load_argument(
    rt: &(impl Files + Env),
    err: &impl Print,
    i: usize,
    other: &[u8],
    space: &mut [u8],
) -> Option<usize>
    ensures { Within space.new result }
{
    if argument_count(rt) <= i {
        return load(rt, err, other, space);
    }
    let mut name = [0; 4096];
    let n = argument(rt, i, &mut name);
    load(rt, err, &name[..n], space)
}

// Goes on with the bytes at the front of a space, as many as a load put there. The count stands
// beside the space, since `load` gives it as std's `read` does, and the part is cut here alone.
// Where the load failed nothing is called, and all is well: the reason is said already. That what
// goes on may be called is asked here and of the two functions below, since it is a fact about a
// closure, which each of them takes once and whose type is the caller's: no struct of this crate
// stands for it.
fn with_loaded<F: FnOnce(&[u8]) -> io::Result<()>>(
    space: &[u8],
    loaded: Option<usize>,
    go_on: F,
) -> io::Result<()>
    requires callable { F.IsAlwaysCallable go_on }
    requires within { Within space.now loaded }
    ensures { GoneOn (FnOnceReturnsAt F.FnOnce go_on) space.now loaded result }
{
    match loaded {
        Some(n) => go_on(&space[..n]),
        None => Ok(()),
    }
}

// Has a program go on with the bytes of the file of a name, as far as `N` bytes reach, and answers
// what that answers. It ends here where there are none: the reason is said.
pub fn with_file<const N: usize, F: FnOnce(&[u8]) -> io::Result<()>>(
    files: &impl Files,
    err: &impl Print,
    name: &[u8],
    go_on: F,
) -> io::Result<()>
    requires callable { F.IsAlwaysCallable go_on }
    requires size { N < 2 ^ 63 }
    ensures { Loaded (FnOnceReturnsAt F.FnOnce go_on) N result }
{
    let mut space = [0; N];
    let loaded = load(files, err, name, &mut space);
    with_loaded(&space, loaded, go_on)
}

// The same with the record in the file that an argument names, or in another where there is no such
// argument.
pub fn with_record<F: FnOnce(&[u8]) -> io::Result<()>>(
    rt: &(impl Files + Env),
    err: &impl Print,
    i: usize,
    other: &[u8],
    go_on: F,
) -> io::Result<()>
    requires { F.IsAlwaysCallable go_on }
    ensures { Loaded (FnOnceReturnsAt F.FnOnce go_on) RECORD_SPACE result }
{
    let mut space = [0; RECORD_SPACE];
    let loaded = load_argument(rt, err, i, other, &mut space);
    with_loaded(&space, loaded, go_on)
}
