// The lines of a refused record: the number, the cause, the place where it shows, and the bytes before that place.
use crate::layout;
use offence::Kind;
use std::io;

// Bytes and kind come one by one, as `offence` takes them.
pub fn show(out: &impl Print, bytes: &[u8], kind: Kind, number: u8) -> io::Result<()> {
    print!(out; "\nrefused {number}: ")?;
    layout::say(out, b'Y', usize::from(number))?;
    // The number is the documents' own, by which the letter Y has its words. That of the size, 1,
    // has no place.
    if number == 1 {
        return out.write_all(b"\n");
    }
    let place = offence::place_of(kind, bytes);
    println!(out; " before byte {place}")?;
    match place {
        0 => Ok(()),
        _ => shown_bytes(out, bytes, kind, place),
    }
}

// The second line: which record, if the bytes have the mark of one, and its bytes before the place:
// eight of them, or all where there are fewer.
fn shown_bytes(out: &impl Print, bytes: &[u8], kind: Kind, place: usize) -> io::Result<()> {
    let from = place.saturating_sub(8);
    out.write_all(b"  ")?;
    if offence::has_mark(kind, bytes) {
        layout::say(out, b'X', usize::from(u8::from(kind)))?;
        out.write_all(b", ")?;
    }
    print!(out; "from byte {from}:")?;
    for byte in names::part_of(bytes, from, place - from) {
        print!(out; " {byte:02x}")?;
    }
    out.write_all(b"\n")
}
