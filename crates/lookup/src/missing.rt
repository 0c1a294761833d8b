// The strings of `Missing`: the segment, then the entity types on which the path fails there.
ghost use Rattle.std.specs.Prelude.{◌∷◌, ◌+◌, ◌≤◌, length};
ghost use Rattle.names.specs.Lists.{gather};
ghost use Rattle.names.specs.Read.{word_at};
ghost use Rattle.names.specs.Writer.{Stored};
ghost use Rattle.lookup.specs.Lookup.{sized};
ghost use Rattle.lookup.specs.Places.{entities_of, Measures};

use crate::Measured;
use crate::question::Question;
use crate::strings::{one_more, one_string, put_word, word_length};
use resolution::{Candidates, Next, next_failing};

pub fn measure_missing(q: Question<'_>, segment: usize) -> Measured
    ensures { Measures (word_at q.entry.path.bytes.now segment ∷ entities_of q.entry segment)
        result }
{
    let scope = q.candidates.scope;
    let mut left = q.candidates.types;
    let mut m = one_string(word_length(q.path.bytes, segment));
    while let Some((p, others)) = next_failing(Candidates { scope, types: left }, q.path, segment) {
        m = one_more(m, word_length(scope.schema.bytes, p));
        left = others;
    }
    m
}

fn put_entities(out: &mut [u8], at: usize, q: Question<'_>, segment: usize) -> usize
    requires { at + length (gather sized (entities_of q segment)) ≤ length out.old }
    ensures { Stored out.old at (gather sized (entities_of q.entry segment)) out.new result }
{
    let scope = q.candidates.scope;
    let mut left = q.candidates.types;
    let mut place = at;
    while let Some((p, others)) = next_failing(Candidates { scope, types: left }, q.path, segment) {
        place = put_word(out, place, scope.schema.bytes, p);
        left = others;
    }
    place
}

pub fn put_missing(out: &mut [u8], at: usize, q: Question<'_>, segment: usize) -> usize
    requires { at + length
        (gather sized (word_at q.path.bytes.now segment ∷ entities_of q segment)) ≤ length out.old }
    ensures { Stored out.old at
        (gather sized (word_at q.entry.path.bytes.now segment ∷ entities_of q.entry segment))
        out.new result }
{
    let place = put_word(out, at, q.path.bytes, segment);
    put_entities(out, place, q, segment)
}
