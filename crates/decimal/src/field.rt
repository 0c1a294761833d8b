// A decimal as a field of a record.
ghost use Rattle.std.specs.Prelude.{◌≡◌};
ghost use Rattle.names.specs.Read.{ending};
ghost use Rattle.decimal.specs.Decimal.{decimal_text};

use crate::text::value_of;
use names::{Class, Read};

pub fn read_decimal(s: &[u8], at: usize) -> Read
    ensures { result ≡ ending (decimal_text s.now at) }
{
    let end = names::read_string(s, at, Class::Plain)?;
    value_of(names::word(s, at))?;
    Ok(end)
}
