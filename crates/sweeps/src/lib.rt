// The listing of a condition's windows, in sweeps of a period and the seconds left.
//
// | module | what it has |
// |---|---|
// | entries | an entry put into the lent buffer: nothing after one that did not fit, and only what fits |
// | run | `windows(condition, period, output)`: record 2 read, indexed once, the window of each reached condition |
//
// The buffer and what it holds stay two parameters, of which each function asks `Fit`: a struct
// that keeps the `&mut` of the buffer needs in each of these functions a clause that its reference
// is the one that it had, in place of the one that goes.
#![tactic(auto)]

mod entries;
mod run;

pub use run::windows;
