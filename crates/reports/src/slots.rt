// The table of the reports so far, by a number made of their start and message: a repeat is found
// without asking all reports. Its first entry is a key, which the caller may choose, and the slots
// are the entries behind it.
ghost use Rattle.std.specs.Prelude.{◌≡◌, ◌+◌, ◌*◌, ◌<◌, ◌≤◌, length, get_or, set, take, drop};
ghost use Rattle.names.specs.Fields.{number};
ghost use Rattle.reports.specs.Sink.{sink, breach_of, Sound, held};
ghost use Rattle.reports.specs.Slots.{key_of, slots_of, multiplier, middle, mixed, mixed_bytes, joined, hashed_message, hashed, slot_at, Tabled, Finds, is_open, Empty};

use crate::earlier::is_repeat;
use crate::{Report, State};
use names::u32_at;

// What the numbers of a hash are multiplied by under a key.
fn multiplier_of(key: u32) -> u32
    ensures { result ≡ multiplier key }
{
    ((u64::from(key) * 2 + 2654435761) % 4294967296) as u32
}

// The middle of a product.
fn middle(a: u32, b: u32) -> u32
    ensures { result ≡ middle a b }
{
    (u64::from(a) * u64::from(b) / 65536 % 4294967296) as u32
}

// One number more in a hash.
fn mix(by: u32, h: u32, n: u32) -> u32
    ensures { result ≡ mixed by h n }
{
    middle(h.wrapping_add(n), by)
}

// Some bytes in a hash, one by one.
fn mix_bytes(by: u32, h: u32, bytes: &[u8]) -> u32
    ensures { result ≡ mixed_bytes by h bytes.now }
{
    let mut mixed = h;
    for byte in bytes {
        mixed = mix(by, mixed, u32::from(*byte));
    }
    mixed
}

// The two numbers of a message's words in one.
fn join(by: u32, one: u32, two: u32) -> u32
    ensures { result ≡ joined by one two }
{
    mix(by, mix(by, 0, one), two)
}

// The number of a message.
fn hash_message(by: u32, message: &[u8]) -> u32
    ensures { result ≡ hashed_message by message.now }
{
    let (words, rest) = message.as_chunks::<8>();
    let mut one = 0;
    let mut two = 0;
    for word in words {
        one = mix(by, one, u32_at(word, 0));
        two = mix(by, two, u32_at(word, 4));
    }
    mix_bytes(by, join(by, one, two), rest)
}

// The number of a start and a message. Without the square the starts' slots would stand about as
// far from each other under one message as under another.
#[tactic(auto, unfolding(crate::specs::Slots::hashed))]
fn hash(key: u32, it: Report<'_>) -> u32
    ensures { result ≡ hashed key it.entry.start it.entry.message.now }
{
    let by = multiplier_of(key);
    let mixed = mix(by, hash_message(by, it.message), it.start);
    middle(mixed, mixed)
}

// How many slots a table has: its entries behind the key.
fn slots_in(table: &[u32]) -> usize
    ensures { result ≡ length (slots_of table.now) }
{
    table.len().saturating_sub(1)
}

// The slot that is k behind the first of a search.
fn slot_at(size: usize, first: usize, k: usize) -> usize
    requires { (first < size) × (k < size) }
    ensures value { result ≡ slot_at size first k }
    ensures upper_bound { result < size }
{
    let behind = size - first;
    if k < behind { first + k } else { k - behind }
}

// What a slot holds: 0 where it is free, else the place of a report and one more. It is no Option,
// since the table is lent as numbers of 32 bits.
fn entry_at(table: &[u32], at: usize) -> usize
    requires { at + 1 < length table.now }
    ensures { result ≡ get_or (slots_of table.now) at 0 }
{
    table[at + 1] as usize
}

// The slot that a report is put into, the first free one from its own slot on; none, where the
// table has its start and message.
pub fn find(buf: &[u8], state: State, table: &[u32], it: Report<'_>) -> Option<usize>
    requires sound { Sound (sink buf.now state) }
    requires tabled { Tabled (key_of table.now) (held (sink buf.now state)) (slots_of table.now) }
    requires state_in_bounds { length (held (sink buf.now state)) < length (slots_of table.now) }
    ensures { Finds (key_of table.now) (held (sink buf.now state)) (slots_of table.now) (breach_of it.entry) result }
{
    let size = slots_in(table);
    let first = hash(table[0], it) as usize % size;
    for k in 0..size {
        let at = slot_at(size, first, k);
        let entry = entry_at(table, at);
        if entry == 0 {
            return Some(at);
        }
        if is_repeat(buf, entry - 1, it) {
            return None;
        }
    }
    None
}

// A report that stands at a place is put into a slot.
pub fn file(table: &mut [u32], slot: usize, place: usize)
    requires { (slot + 1 < length table.old) × (place < 4294967295) }
    ensures { table.new ≡ set table.old (slot + 1) (place + 1) }
{
    table[slot + 1] = (place + 1) as u32;
}

// All slots made free, whatever they held. The key stays.
pub fn clear(table: &mut [u32])
    ensures { Empty table.new }
{
    if !table.is_empty() {
        table[1..].fill(0);
    }
}

// Whether the table takes one more report of this buffer.
pub fn is_open(buf: &[u8], table: &[u32], state: State) -> bool
    requires { Sound (sink buf.now state) }
    ensures { result ≡ is_open (sink buf.now state) table.now }
{
    let size = slots_in(table);
    state.count < size - size / 4 && buf.len() < 4294967295
}
