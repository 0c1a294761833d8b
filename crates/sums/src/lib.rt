// Sums: a `sum` adds only what is declared Long (`check_sum_summands`).
//
// | module | what it has |
// |---|---|
// | place | `Place`: a reached condition, and the table that the names in it are looked up in |
// | summand | the report of one Sum, by the binder of its summand's name; measured first, then written straight to the buffer |
// | terms | the Sums of a leaf, of a term, of arguments, of a reached condition |
// | run | `sums_with(rules, condition, reports)`: record 2 read, indexed once, each reached condition visited; `sums` has no rules |
//
// The buffer and what it holds stay two parameters, of which each function asks `Sound`: a struct
// that keeps the `&mut` of the buffer needs in each of these functions a clause that its reference
// is the one that it had, in place of the one that goes. Beside them stands the place of what is
// looked at, of another sort in each function, of which each asks that it stands there: the heading
// of `nodes` says why such a place is a number.
#![tactic(auto)]

mod place;
mod run;
mod summand;
mod terms;

pub use place::Place;
pub use run::{sums, sums_with};
