// Numbers and strings as they stand in bytes.
ghost use Rattle.std.specs.Prelude.{◌≡◌, ◌+◌, ◌<◌, ◌≤◌, length, take, drop, MatchOption};
ghost use Rattle.names.specs.Fields.{number};
ghost use Rattle.program.specs.Program.{number_at, short_at};

// So many bytes at a place, where there are so many.
fn bytes_at<const N: usize>(s: &[u8], at: usize) -> Option<[u8; N]>
    ensures { MatchOption result (length s.now < at + N)
        (λ bytes. (at + N ≤ length s.now) × (bytes ≡ take N (drop at s.now))) }
{
    let (bytes, _) = s.get(at..)?.split_first_chunk()?;
    Some(*bytes)
}

// The 64-bit number at a place; 0 where there are not so many bytes, and no Option, since `number_at`
// says 0 there, which each caller would put in the place of None. This one and the next differ
// in the type alone, and stay two: std has `from_be_bytes` at each type and in no trait, so that
// one function for both would need a trait with two impls of the same line.
#[tactic(auto, using(crate::proofs::Numbers::there, crate::proofs::Numbers::fewer))]
pub fn u64_at(s: &[u8], at: usize) -> u64
    ensures { result ≡ number_at s.now at }
{
    bytes_at(s, at).map_or(0, u64::from_be_bytes)
}

// The 32-bit number at a place; 0 where there are not so many bytes.
#[tactic(auto, using(crate::proofs::Numbers::there_4, crate::proofs::Numbers::fewer_4))]
pub fn u32_at(s: &[u8], at: usize) -> u32
    ensures { result ≡ short_at s.now at }
{
    bytes_at(s, at).map_or(0, u32::from_be_bytes)
}

// The bytes behind a 16-bit length in front of some bytes, as far as there are so many, and what
// follows them.
pub fn split_field(s: &[u8]) -> (&[u8], &[u8])
    ensures text { result.0.now ≡ take (number 0 (take 2 s.now)) (drop 2 s.now) }
    ensures rest { result.1.now ≡ drop (number 0 (take 2 s.now)) (drop 2 s.now) }
{
    let behind = s.get(2..).unwrap_or(&[]);
    behind.split_at(names::u16_at(s, 0).min(behind.len()))
}
