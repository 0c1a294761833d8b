// A buffer that is handed back: the reports that stand whole at its front, and their places in a
// table.
ghost use Rattle.std.specs.Prelude.{◌≡◌, true, false, ◌+◌, ◌<◌, ◌≤◌, length};
ghost use Rattle.reports.specs.Decode.{long_at};
ghost use Rattle.reports.specs.Sink.{sink, Sound, more};
ghost use Rattle.reports.specs.Slots.{is_open, Filed};
ghost use Rattle.reports.specs.Standing.{standing_state, HeaderAt, EndsAt, Resumes};

use crate::buffer::one_more;
use crate::slots::{clear, file, find, is_open};
use crate::{Header, Report, Resumed, State};
use names::{part_of, word_at};

// The header of the report at a place. The start and the end come by one load of eight bytes: each
// by itself would be four loads.
fn header_at(buf: &[u8], at: usize) -> Header
    requires { at + 10 ≤ length buf.now }
    ensures here { HeaderAt buf.now at result }
    ensures long_bound { result.long < 65536 }
{
    let both = word_at(buf, at);
    Header {
        start: (both / 4294967296) as u32,
        end: (both % 4294967296) as u32,
        long: usize::from(u16::from_be_bytes([buf[at + 8], buf[at + 9]])),
    }
}

// Where the report at a place ends, if it stands there whole.
fn report_end(buf: &[u8], at: usize) -> Option<usize>
    requires { at ≤ length buf.now }
    ensures { EndsAt buf.now at result }
{
    let left = buf.len() - at;
    if left < 10 {
        return None;
    }
    let header = header_at(buf, at);
    if left - 10 < header.long {
        return None;
    }
    Some(at + 10 + header.long)
}

// The state of a buffer that holds nothing but the reports that stand whole at the front of some
// bytes.
fn standing_state(bytes: &[u8]) -> State
    ensures value { result ≡ standing_state bytes.now }
    ensures sound { Sound (sink bytes.now result) }
{
    let mut state = State::default();
    while let Some(next) = report_end(bytes, state.used) {
        state = one_more(state, next);
    }
    state
}

// What a buffer holds of which so many bytes are used: the reports that stand whole at the front of
// these bytes, and how many of its bytes may be used further. All of them where nothing else stands
// there, else only those of these reports. The buffer is lent whole beside `used`, and not only its
// front: the bytes behind `used` are counted among those that may be used.
pub fn resume(buf: &[u8], used: usize) -> Resumed
    ensures { Resumes buf.now used result }
{
    let state = standing_state(part_of(buf, 0, used));
    let size = if state.used == used {
        buf.len()
    } else {
        state.used
    };
    Resumed { state, size }
}

// The report that stands behind those of a state, put into a table that takes one more, where the
// table does not have its pair.
fn file_next(buf: &[u8], table: &mut [u32], state: State) -> State
    requires sound { Sound (sink buf.now state) × (state.full ≡ false) }
    requires filed { Filed (sink buf.now state) table.old }
    requires table_value { is_open (sink buf.now state) table.old ≡ true }
    requires used_in_bounds { state.used + 10 + long_at buf.now state.used ≤ length buf.now }
    ensures value { result ≡ more state (state.used + 10 + long_at buf.now state.used) }
    ensures sound_2 { Sound (sink buf.now result) }
    ensures filed_2 { Filed (sink buf.now result) table.new }
{
    let at = state.used;
    let header = header_at(buf, at);
    let it = Report {
        start: header.start,
        end: header.end,
        message: part_of(buf, at + 10, header.long),
    };
    let next = one_more(state, at + 10 + header.long);
    if let Some(slot) = find(buf, state, table, it) {
        file(table, slot, at);
    }
    next
}

// The reports of a buffer put into a table, as long as it takes more, whatever it held before. The
// key stays.
pub fn refile(buf: &[u8], state: State, table: &mut [u32])
    requires { Sound (sink buf.now state) }
    ensures { Filed (sink buf.now state) table.new }
{
    clear(table);
    let mut filed = State::default();
    // The count of what is filed lies in the state that `file_next` returns: no index is counted
    // beside it.
    while filed.count < state.count {
        if !is_open(buf, table, filed) {
            return;
        }
        filed = file_next(buf, table, filed);
    }
}
