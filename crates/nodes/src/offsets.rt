// Where the first part of a node stands. What stands there, by the kind of the node, is said by the
// laws of `specs/Laws/Inside`.
ghost use Rattle.std.specs.Prelude.{◌≡◌, true, ◌+◌, ◌≤◌, ◌<◌};
ghost use Rattle.condition.specs.Places.{is_condition, is_term, is_aggregate};
ghost use Rattle.nodes.specs.Offsets.{first_part, term_part, left_part, aggregate_part};

use crate::windows::window_length;

// In a condition: a condition, a binder, a slot, a comparison's left operand. The kind is told by
// its byte and by no `Kind`: the definition of the same name goes by the number, and `kind_at`
// stands in `parts`, which is built on this function.
pub fn first_part(s: &[u8], at: usize) -> usize
    requires { is_condition s.now at ≡ true }
    ensures value { result ≡ first_part s.now at }
    ensures lower_bound { at + 9 ≤ result }
{
    let next = at + 9;
    match s[at] {
        4..=6 => next + window_length(s, next),
        8 => next + 1,
        _ => next,
    }
}

// In a term: a name, a path, the count of an array's elements, an aggregate.
pub fn term_part(s: &[u8], at: usize) -> usize
    requires { is_term s.now at ≡ true }
    ensures value { result ≡ term_part s.now at }
    ensures lower_bound { at < result }
{
    at + 1
}

// In an arithmetic: its left operand.
pub fn left_part(s: &[u8], at: usize) -> usize
    requires { is_term s.now at ≡ true }
    ensures value { result ≡ left_part s.now at }
    ensures lower_bound { at < result }
{
    if condition::version(s) <= 2 {
        return at + 1;
    }
    at + 2
}

// In an aggregate: a Sum's slot, the count of a Count's binders.
pub fn aggregate_part(s: &[u8], at: usize) -> usize
    requires { is_aggregate s.now at ≡ true }
    ensures { result ≡ aggregate_part s.now at }
{
    at + 9
}
