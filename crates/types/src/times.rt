// The two words that name types beside those of the published Rust.
ghost use Rattle.std.specs.Prelude.{◌≡◌};
ghost use Rattle.types.specs.Types.{dated, time_type};
ghost use Rattle.types.specs.Meaning.{time_of};

use crate::Scalar;

// The type of its own that a word names. A `match` on byte strings is no plainer: the check asks
// what holds in its last arm once for each byte at which the word may differ, sixteen times.
#[tactic(auto, unfolding(crate::specs::Types::time_type, names::specs::Text::text))]
pub fn time_type(word: &[u8]) -> Option<Scalar>
    ensures { time_of result ≡ time_type dated word.now }
{
    if names::same(word, b"datetime") {
        return Some(Scalar::Datetime);
    }
    if names::same(word, b"duration") {
        return Some(Scalar::Duration);
    }
    None
}
