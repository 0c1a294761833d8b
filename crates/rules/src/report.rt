// A finding into the buffer: its message is composed in a scratch, compared with the earlier
// reports, and copied out.
ghost use Rattle.std.specs.Prelude.{◌≡◌};
ghost use Rattle.reports.specs.Sink.{sink};
ghost use Rattle.reports.specs.Slots.{Lent, Pushed};
ghost use Rattle.messages.specs.Words.{said_breaches, SaidStands, span_in};
ghost use Rattle.rules.specs.Findings.{said_of};

use crate::Finding;
use messages::{Sentence, Word, say};
use nodes::Ends;
use reports::{Message, Report, State};

// The message of a finding, where there is one.
#[tactic(auto, using(crate::proofs::Reporting::saying))]
fn said_of(finding: Option<Finding>) -> Option<Sentence>
    ensures { result ≡ said_of finding }
{
    let none = Word::Nothing;
    match finding? {
        Finding::Wildcard => say(Message::WildcardInside, none, none, none, none),
        Finding::NotLong(t) => say(Message::NotLong, Word::Shown(t), none, none, none),
        Finding::NotNumeric(l, r) => say(
            Message::NotNumeric,
            Word::Shown(l),
            Word::Shown(r),
            none,
            none,
        ),
        Finding::Unlike(l, r) => say(
            Message::UnlikeTypes,
            Word::Shown(l),
            Word::Shown(r),
            none,
            none,
        ),
        Finding::WrongTimepoint(name, t) => {
            let word = Word::Name(name);
            say(Message::WrongTimepoint, word, word, word, Word::Shown(t))
        }
        Finding::WrongArgument(name, action, e, a) => {
            say(
                Message::WrongArgument,
                Word::Name(name),
                Word::Name(action),
                Word::Shown(e),
                Word::Shown(a),
            )
        }
    }
}

// The breaches of a finding at a span. It takes the bytes of the schema and of the condition, and
// no setting: that each is below 256, which bounds the message, is known of a slice that is a
// parameter itself. The same function was tried with a setting, and its proof did not close.
#[tactic(auto, using(crate::proofs::Reporting::reporting))]
pub fn report<'a>(
    buf: &mut [u8],
    table: &mut [u32],
    state: State,
    schema: &'a [u8],
    condition: &'a [u8],
    span: Ends,
    finding: Option<Finding>,
) -> State
    requires lent { Lent (sink buf.old state) table.old }
    requires said_stands { SaidStands schema.now condition.now (said_of finding) }
    ensures { Pushed buf.old state (said_breaches schema.now condition.now (said_of finding) (span_in span)) buf.new result table.new }
{
    let Some(message) = said_of(finding) else {
        return state;
    };
    let mut scratch = [0u8; 2048];
    let n = messages::put_message(&mut scratch, 0, schema, condition, message);
    let it = Report {
        start: span.start,
        end: span.end,
        message: &scratch[..n],
    };
    reports::push(buf, table, state, it)
}
