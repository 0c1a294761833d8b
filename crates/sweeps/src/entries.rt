// An entry of the listing, put into the lent buffer.
ghost use Rattle.std.specs.Prelude.{◌≡◌, [], ◌∷◌, ◌+◌, ◌≤◌, length};
ghost use Rattle.names.specs.Writer.{Stored};
ghost use Rattle.reports.specs.Sink.{sink};
ghost use Rattle.sweeps.specs.Entries.{encoded};
ghost use Rattle.sweeps.specs.Entering.{Fit, Entered};

use names::{put_u32, put_u64};
use reports::State;

// The 20 bytes of an entry.
fn put_entry(out: &mut [u8], at: usize, start: u32, sweeps: u64, rest: u64) -> usize
    requires { at + 20 ≤ length out.old }
    ensures { Stored out.old at (encoded (record { start = start; sweeps = sweeps; rest = rest })) out.new result }
{
    let n = put_u32(out, at, start);
    let n = put_u64(out, n, sweeps);
    put_u64(out, n, rest)
}

// One entry more: nothing after one that did not fit, and only what fits.
pub fn enter(out: &mut [u8], state: State, start: u32, sweeps: u64, rest: u64) -> State
    requires { Fit (sink out.old state) }
    ensures { Entered out.old state (record { start = start; sweeps = sweeps; rest = rest } ∷ []) out.new result }
{
    if state.full {
        return state;
    }
    let at = state.used;
    if out.len() - at < 20 {
        return reports::stopped(state);
    }
    let next = put_entry(out, at, start, sweeps, rest);
    reports::one_more(state, next)
}
