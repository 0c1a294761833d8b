// The state of a stepping check: as it begins, with a mark changed, after a target, and in an answer.
ghost use Rattle.std.specs.Prelude.{◌≡◌, [], ◌+◌, ◌-◌};
ghost use Rattle.names.specs.Fields.{number_of};
ghost use Rattle.steps.specs.Steps.{begins, marked, capped, done_with};
ghost use Rattle.steps.specs.Parts.{Answered, Told, Grown};

use crate::{DONE, Stepped, Steps};
use names::Refusal;
use reports::State;
use typecheck::Progress;

// No target is done or withdrawn, and there is no report.
pub fn begins(rules: u8) -> Steps
    ensures { result ≡ begins rules }
{
    Steps {
        rules,
        stopped: 0,
        marks: [0; 256],
        used: 0,
        visits: 0,
    }
}

// The state with another mark at a position.
pub fn marked(state: Steps, position: u8, mark: u8) -> Steps
    ensures { result ≡ marked state position mark }
{
    let mut marks = state.marks;
    marks[usize::from(position)] = mark;
    Steps { marks, ..state }
}

// So many visits and some more, up to the most that the state holds.
fn add_visits(visits: u32, more: usize) -> u32
    ensures { result ≡ capped (visits + more) }
{
    visits.saturating_add(u32::try_from(more).unwrap_or(u32::MAX))
}

// How many bytes of the buffer are used after a target, by what the reports of these bytes took before it and take after it.
fn used_after(used: usize, before: usize, after: usize) -> usize
    requires { Grown used before after }
    ensures { result ≡ used + (after - before) }
{
    if before == used {
        return after;
    }
    used
}

// The state after the target at a position, from the reports before it on.
pub fn done(state: Steps, position: u8, before: State, after: Progress) -> Steps
    requires { Grown state.used before.used after.state.used }
    ensures { result ≡ (done_with state position before after.state after.visits []).state }
{
    let end = after.state;
    Steps {
        stopped: u8::from(end.full),
        used: used_after(state.used, before.used, end.used),
        visits: add_visits(state.visits, after.visits),
        ..marked(state, position, DONE)
    }
}

// An answer without reports and visits, with the state to hand in next: that the call was done.
pub fn answered(state: Steps) -> Stepped
    ensures { Answered state 0 0 result }
{
    let answer = typecheck::with_visits(reports::answer_of(State::default()), 0);
    Stepped { answer, state }
}

// The same where the call is refused, by the record that this is about, 0 for none.
// The record is a number, as the answer at the C interface has it.
pub fn refused(state: Steps, refusal: Refusal, record: u8) -> Stepped
    ensures { Answered state (number_of refusal) «record» result }
{
    let answer = typecheck::with_visits(reports::refuse(refusal, record), 0);
    Stepped { answer, state }
}

// The answer of a check that holds these reports, with its visits and the state to hand in next.
pub fn told(state: Steps, held: State) -> Stepped
    ensures { Told state held result }
{
    let answer = typecheck::with_visits(reports::answer_of(held), state.visits as usize);
    Stepped { answer, state }
}
