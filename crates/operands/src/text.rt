// A type rendered at the front of a lent buffer: it is measured before the first byte is written.
ghost use Rattle.std.specs.Prelude.{◌≡◌};
ghost use Rattle.types.specs.Types.{render};
ghost use Rattle.types.specs.Laws.Texts.{Small};
ghost use Rattle.types.specs.Meaning.{rich_of};
ghost use Rattle.resolution.specs.Places.{typed_of, small_type};
ghost use Rattle.operands.specs.Operands.{placed, shown};
ghost use Rattle.operands.specs.Answers.{outcome_of};

use crate::Answer;
use names::Refusal;
use resolution::Typed;
use typecheck::RefusedRecord;
use types::{Form, Rich};

// A type, whole or not at all.
#[tactic(auto, using(crate::proofs::Written::placing))]
fn place_type<'a>(
    schema: &'a [u8],
    condition: &'a [u8],
    t: Rich,
    out: &mut [u8],
) -> Result<Answer, RefusedRecord>
    requires { Small (rich_of schema.now condition.now t) }
    ensures { outcome_of result out.new ≡ placed (render (rich_of schema.now condition.now t)) out.old }
{
    let long = types::text_length(schema, condition, Form::Render, t);
    if out.len() < long {
        return Err(RefusedRecord {
            refusal: Refusal::NoSpace,
            record: 0,
        });
    }
    Ok(Answer::Written(types::render(out, 0, schema, condition, t)))
}

// A type, if there is one.
#[tactic(auto, using(crate::proofs::Written::showing))]
pub fn show_type<'a>(
    schema: &'a [u8],
    condition: &'a [u8],
    typed: Typed,
    out: &mut [u8],
) -> Result<Answer, RefusedRecord>
    requires { small_type (typed_of schema.now condition.now typed) }
    ensures { outcome_of result out.new ≡ shown (typed_of schema.now condition.now typed) out.old }
{
    let Some(t) = typed else {
        return Ok(Answer::Untyped);
    };
    place_type(schema, condition, t, out)
}
