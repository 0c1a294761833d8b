// The aggregates of a comparison's operands, one after another.
ghost use Rattle.std.specs.Prelude.{◌≡◌, true};
ghost use Rattle.condition.specs.Places.{is_condition, condition_in};
ghost use Rattle.nodes.specs.Kinds.{kind_of};
ghost use Rattle.nodes.specs.Parts.{is_terms, aggregates_in, NextIs, OperandsHere};

use crate::leaves::next_leaf;
use crate::offsets::{first_part, term_part};
use crate::parts::term_kind_at;
use crate::{NextPart, Several, TermKind};

// The operands of a comparison, as two terms in a row.
#[tactic(auto, using(crate::proofs::TermsLeft::operands_here))]
pub fn operands_at(s: &[u8], at: usize) -> Several
    requires at_value { is_condition s.now at ≡ true }
    requires at_value_2 { kind_of (condition_in s.now at) ≡ 8 }
    ensures { OperandsHere s.now at result }
{
    Several {
        count: 2,
        first: first_part(s, at),
    }
}

// The next aggregate of so many terms in a row, in order: the first of their leaves that is one.
pub fn next_aggregate(s: &[u8], count: usize, first: usize) -> NextPart
    requires { is_terms s.now count first ≡ true }
    ensures { NextIs s.now (aggregates_in s.now count first) result }
{
    let mut left = Several { count, first };
    while let Some((at, others)) = next_leaf(s, left.count, left.first) {
        if term_kind_at(s, at) == TermKind::Aggregate {
            return Some((term_part(s, at), others));
        }
        left = others;
    }
    None
}
