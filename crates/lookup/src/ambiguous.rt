// The strings of `Ambiguous`: the types that the path has, rendered, in order and each once.
ghost use Rattle.std.specs.Prelude.{◌+◌, ◌≤◌, length};
ghost use Rattle.names.specs.Lists.{gather};
ghost use Rattle.names.specs.Writer.{Stored};
ghost use Rattle.lookup.specs.Lookup.{sized};
ghost use Rattle.lookup.specs.Places.{rendered_of, Measures};

use crate::Measured;
use crate::question::Question;
use crate::strings::{one_more, put_type, type_length};
use resolution::{Typed, next_rendering};

pub fn measure_types(q: Question<'_>) -> Measured
    ensures { Measures (rendered_of q.entry) result }
{
    let mut last = None;
    let mut m = Measured { count: 0, size: 0 };
    while let Some(t) = next_rendering(q.candidates, q.path, last) {
        m = one_more(
            m,
            type_length(q.candidates.scope.schema.bytes, q.path.bytes, t),
        );
        last = Some(t);
    }
    m
}

pub fn put_types(out: &mut [u8], at: usize, q: Question<'_>) -> usize
    requires { at + length (gather sized (rendered_of q)) ≤ length out.old }
    ensures { Stored out.old at (gather sized (rendered_of q.entry)) out.new result }
{
    let mut last = None;
    let mut place = at;
    while let Some(t) = next_rendering(q.candidates, q.path, last) {
        place = put_type(out, place, q.candidates.scope.schema.bytes, q.path.bytes, t);
        last = Some(t);
    }
    place
}
