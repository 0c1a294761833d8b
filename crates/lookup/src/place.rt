// An answer placed at the front of a lent buffer: it is measured before the first byte is written.
ghost use Rattle.std.specs.Prelude.{◌≡◌, ◌+◌, ◌≤◌, length};
ghost use Rattle.names.specs.Lists.{gather};
ghost use Rattle.names.specs.Writer.{Stored};
ghost use Rattle.reports.specs.Answers.{outcome_of};
ghost use Rattle.reports.specs.Placed.{placed};
ghost use Rattle.resolution.specs.Resolution.{unknown};
ghost use Rattle.resolution.specs.Passes.{scope_number};
ghost use Rattle.lookup.specs.Lookup.{sized, block, output};
ghost use Rattle.lookup.specs.Places.{answer_to, strings_of, Measures};

use crate::Measured;
use crate::ambiguous::{measure_types, put_types};
use crate::missing::{measure_missing, put_missing};
use crate::question::{Answered, Question};
use crate::strings::{one_string, put_start, put_type, put_word, type_length, word_length};
use names::Refusal;
use reports::{Answer, refuse, written};
use resolution::{ScopePath, resolve_scope_path, scope_number};

// How many strings an answer has, and how many bytes they take.
fn measure(answered: Answered<'_>) -> Measured
    ensures { Measures (strings_of answered.entry.question answered.entry.answer) result }
{
    let q = answered.question;
    let s = q.candidates.scope.schema.bytes;
    let c = q.path.bytes;
    match answered.answer {
        ScopePath::Resolved(t) => one_string(type_length(s, c, t)),
        ScopePath::Missing(p) => measure_missing(q, p),
        ScopePath::NonRecord(p) => one_string(word_length(c, p)),
        ScopePath::Ambiguous => measure_types(q),
        ScopePath::Unknown => Measured { count: 0, size: 0 },
    }
}

// The strings of an answer, written.
fn put_strings(out: &mut [u8], at: usize, answered: Answered<'_>) -> usize
    requires { at + length (gather sized (strings_of answered.question answered.answer)) ≤ length
        out.old }
    ensures { Stored out.old at
        (gather sized (strings_of answered.entry.question answered.entry.answer)) out.new result }
{
    let q = answered.question;
    let s = q.candidates.scope.schema.bytes;
    let c = q.path.bytes;
    match answered.answer {
        ScopePath::Resolved(t) => put_type(out, at, s, c, t),
        ScopePath::Missing(p) => put_missing(out, at, q, p),
        ScopePath::NonRecord(p) => put_word(out, at, c, p),
        ScopePath::Ambiguous => put_types(out, at, q),
        ScopePath::Unknown => at,
    }
}

// An answer to a question, whole or not at all.
fn place_answer(answered: Answered<'_>, out: &mut [u8]) -> Answer
    ensures { outcome_of result out.new ≡ placed (block (scope_number answered.entry.answer)
        (strings_of answered.entry.question answered.entry.answer)) out.old }
{
    let m = measure(answered);
    if out.len() < 3 + m.size {
        return refuse(Refusal::NoSpace, 0);
    }
    let at = put_start(out, scope_number(answered.answer), m.count);
    let next = put_strings(out, at, answered);
    written(next)
}

// The answer for a target that is not declared.
pub fn place_unknown(out: &mut [u8]) -> Answer
    ensures { outcome_of result out.new ≡ placed (output unknown) out.old }
{
    if out.len() < 3 {
        return refuse(Refusal::NoSpace, 0);
    }
    let next = put_start(out, scope_number(ScopePath::Unknown), 0);
    written(next)
}

// The answer to a question.
pub fn place_path(question: Question<'_>, out: &mut [u8]) -> Answer
    ensures { outcome_of result out.new ≡ placed (output (answer_to question.entry)) out.old }
{
    let answer = resolve_scope_path(question.candidates, question.path);
    place_answer(Answered { question, answer }, out)
}
