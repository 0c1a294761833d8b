// The claims over whole runs of the check; this crate has no code. `specs/` says what is claimed, `proofs/` proves it.
//
// The claims are of the running code: a `Run` (specs/Breaches.antt) is an answer with the buffer before and after it, for which the
// contract of `dogwood_check_with` holds, word for word. That contract equates them with the definition `check_with`, of which `check` is the
// one without rules, and nothing else is used of them.
//
// So are those of the stepping check: a `History` (specs/Steps.antt) is a start and any calls since, each of which carries the equation that its
// function's contract has, with what it was handed and what it left.

#![tactic(auto)]
