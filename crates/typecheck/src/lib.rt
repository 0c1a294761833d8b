// The check: the rules at each reached node, under each target, and the reports of what breaks them.
//
// A buffer, the table of the reports in it and its state travel together, and a function that puts
// reports in asks `Lent` of them. They stay three parameters: a struct of them would hold two
// `&mut`, and each function that takes it would promise that both are still the references that
// were lent. Those are two clauses more, in place of the one that would go.
#![tactic(auto)]

mod prepared;
mod run;

use condition::ConditionRecord;
use names::Refusal;
use reports::State;
pub use run::{check, check_target, check_with, read_records, with_visits};
use schema::SchemaRecord;
use targets::TargetsRecord;

// What a check answers: the number of a refusal, 0 for none; the record that it is about, 0 for none; how many reports the buffer holds; how many visits were
// begun, a visit being one reached condition looked at under one target.
// It crosses the C interface, so a refusal is two numbers in it, and neither an Option nor a
// Result.
#[repr(C)]
#[derive(Clone, Copy)]
pub struct CheckAnswer {
    pub number: u8,
    pub record: u8,
    pub count: usize,
    pub visits: usize,
}

// How far a run has come: the state of the buffer, and how many visits were begun.
#[derive(Clone, Copy)]
pub struct Progress {
    pub state: State,
    pub visits: usize,
}

// A record that is refused: what for, and which record it is. The records are numbered from 1, and
// the number stays one, since the answer at the C interface gives it.
#[derive(Clone, Copy)]
pub struct RefusedRecord {
    pub refusal: Refusal,
    pub record: u8,
}

// The three records of a check, each of them read in full.
#[derive(Clone, Copy)]
pub struct Records<'a> {
    pub schema: SchemaRecord<'a>,
    pub condition: ConditionRecord<'a>,
    pub targets: TargetsRecord<'a>,
}
