// Writers: each stores bytes in a lent buffer from a place on, and returns the next place.
//
// Buffer and place stay two parameters: a struct of both would hold the `&mut`, and each function
// that takes it would have to promise that it is the same buffer still.
//
// The numbers have three writers, since one with a const parameter would need a trait over the
// integers for `to_be_bytes`.
ghost use Rattle.std.specs.Prelude.{◌+◌, ◌<◌, ◌≤◌, length};
ghost use Rattle.names.specs.Fields.{digits};
ghost use Rattle.names.specs.Writer.{Stored};

// Bytes, one by one: `copy_from_slice` is a call of `memmove`, which the static library would then
// need from outside.
#[tactic(auto, using(crate::proofs::Pasting::pasting))]
pub fn put(buf: &mut [u8], at: usize, bytes: &[u8]) -> usize
    requires { at + length bytes.now ≤ length buf.old }
    ensures { Stored buf.old at bytes.now buf.new result }
{
    for i in 0..bytes.len() {
        buf[at + i] = bytes[i];
    }
    at + bytes.len()
}

// The two bytes of a number, the higher first. The number is a usize with its bound and no u16,
// since each caller counts in usize.
#[tactic(auto, using(crate::specs::Laws::Fields::two_bytes))]
pub fn put_u16(buf: &mut [u8], at: usize, n: usize) -> usize
    requires { (n < 65536) × (at + 2 ≤ length buf.old) }
    ensures { Stored buf.old at (digits 2 n) buf.new result }
{
    put(buf, at, &(n as u16).to_be_bytes())
}

// The four bytes of a number, the highest first.
#[tactic(auto, using(crate::specs::Laws::Fields::four_bytes))]
pub fn put_u32(buf: &mut [u8], at: usize, n: u32) -> usize
    requires { at + 4 ≤ length buf.old }
    ensures { Stored buf.old at (digits 4 n) buf.new result }
{
    put(buf, at, &n.to_be_bytes())
}

// The eight bytes of a number, the highest first.
#[tactic(auto, using(crate::specs::Laws::Fields::eight_bytes))]
pub fn put_u64(buf: &mut [u8], at: usize, n: u64) -> usize
    requires { at + 8 ≤ length buf.old }
    ensures { Stored buf.old at (digits 8 n) buf.new result }
{
    put(buf, at, &n.to_be_bytes())
}
