// A choice byte behind which nothing belongs to the choice: an operator, a Bool's value.
ghost use Rattle.std.specs.Prelude.{◌≡◌};
ghost use Rattle.names.specs.Read.{ending};
ghost use Rattle.condition.specs.Places.{choice_up_to};

use names::{Read, Refusal};

// The choices are numbered from 0 on, and `last` is the number of the last. The byte is only
// tested: an enum would be made and thrown away.
pub fn read_choice(s: &[u8], at: usize, last: u8) -> Read
    ensures { result ≡ ending (choice_up_to last s.now at) }
{
    match s.get(at) {
        Some(&choice) if choice <= last => Ok(at + 1),
        Some(_) => Err(Refusal::UndefinedChoice),
        None => Err(Refusal::Cut),
    }
}
