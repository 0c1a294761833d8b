// Equality and order of strings.
ghost use Rattle.std.specs.Prelude.{◌≡◌, ◌+◌, ◌≤◌, length};
ghost use Rattle.names.specs.Names.{same, below, order};
ghost use Rattle.names.specs.Order.{order_number};
ghost use Rattle.names.specs.Laws.Words.{WordAt};

use std::cmp::Ordering;

// The eight bytes from a place on as one number, the first of them highest. It compiles to one load
// and a swap of bytes.
pub fn word_at(s: &[u8], at: usize) -> u64
    requires { at + 8 ≤ length s.now }
    ensures { WordAt s.now at result }
{
    u64::from_be_bytes([
        s[at],
        s[at + 1],
        s[at + 2],
        s[at + 3],
        s[at + 4],
        s[at + 5],
        s[at + 6],
        s[at + 7],
    ])
}

// Equal lengths first: most names that are not the same differ in it. Then eight bytes at a time,
// and the rest singly. It is not `a == b` throughout, which takes half as long again for names of 8
// bytes, and a third more for those of 13 to 20.
pub fn same(a: &[u8], b: &[u8]) -> bool
    ensures { result ≡ same a.now b.now }
{
    if a.len() != b.len() {
        return false;
    }
    let words = a.len() / 8;
    for i in 0..words {
        if word_at(a, 8 * i) != word_at(b, 8 * i) {
            return false;
        }
    }
    a[8 * words..] == b[8 * words..]
}

// Bytewise, a prefix first, byte by byte: what is left behind the last whole word. The shorter of
// the two has fewer than eight bytes here. What speaks against `a.cmp(&b)` is said at `compare`,
// whose end this is.
fn compare_bytes(a: &[u8], b: &[u8]) -> Ordering
    ensures { order_number result ≡ order a.now b.now }
{
    for (x, y) in a.iter().zip(b) {
        if x != y {
            return x.cmp(y);
        }
    }
    a.len().cmp(&b.len())
}

// Bytewise, a prefix first: eight bytes at a time while both have as many, then the rest singly.
// It is not `a.cmp(&b)`, which takes about twice as long for names of 8 bytes and of 40.
pub fn compare(a: &[u8], b: &[u8]) -> Ordering
    ensures { order_number result ≡ order a.now b.now }
{
    let words = a.len().min(b.len()) / 8;
    for i in 0..words {
        let x = word_at(a, 8 * i);
        let y = word_at(b, 8 * i);
        if x != y {
            return x.cmp(&y);
        }
    }
    compare_bytes(&a[8 * words..], &b[8 * words..])
}

// Whether the first comes strictly before the second.
pub fn is_below(a: &[u8], b: &[u8]) -> bool
    ensures { result ≡ below a.now b.now }
{
    compare(a, b).is_lt()
}
