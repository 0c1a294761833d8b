// The leaves of terms, one after another. In the bytes of an Arith they simply follow each other,
// so that no place is read twice.
ghost use Rattle.std.specs.Prelude.{◌≡◌, true};
ghost use Rattle.nodes.specs.Parts.{is_terms, leaves_in, NextLeafIs};

use crate::offsets::left_part;
use crate::parts::{past_term, term_kind_at};
use crate::{NextPart, Several, TermKind};

// The next leaf of so many terms in a row, in order: the first term, or the leftmost of an
// arithmetic, whose right then stands before the other terms. How often the loop turns is in the
// bytes alone, so no `for` counts it.
pub fn next_leaf(s: &[u8], count: usize, first: usize) -> NextPart
    requires { is_terms s.now count first ≡ true }
    ensures { NextLeafIs s.now (leaves_in s.now count first) result }
{
    if count == 0 {
        return None;
    }
    let mut at = first;
    let mut further = count - 1;
    while term_kind_at(s, at) == TermKind::Arith {
        at = left_part(s, at);
        further += 1;
    }
    let others = Several {
        count: further,
        first: past_term(s, at),
    };
    Some((at, others))
}
