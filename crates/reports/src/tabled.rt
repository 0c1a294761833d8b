// One breach into the buffer, where no report has its message and start: the reports so far are
// looked up in a table, and one by one only where it takes no more.
ghost use Rattle.std.specs.Prelude.{◌≡◌, true, false, [], ◌∷◌};
ghost use Rattle.reports.specs.Sink.{sink, breach_of, Sound, push};
ghost use Rattle.reports.specs.Slots.{is_open, Filed, FreeIn, Lent, Pushed};

use crate::buffer::append_report;
use crate::earlier::seen;
use crate::slots::{file, find, is_open};
use crate::{Report, State};

// One breach that no report is, put into the buffer and, where it fits, into a slot that is free
// for it.
fn add_filed(buf: &mut [u8], table: &mut [u32], slot: usize, state: State, it: Report<'_>) -> State
    requires sound { Sound (sink buf.old state) }
    requires free_in { FreeIn buf.old state table.old (breach_of it) slot }
    ensures result_after { sink buf.new result ≡ push (sink buf.old state) (breach_of it.entry) }
    ensures filed { Filed (sink buf.new result) table.new }
{
    let after = append_report(buf, state, it);
    if after.full {
        return after;
    }
    file(table, slot, state.used);
    after
}

// One breach that is looked for in the table, which takes one more.
fn push_filed(buf: &mut [u8], table: &mut [u32], state: State, it: Report<'_>) -> State
    requires sound { Sound (sink buf.old state) }
    requires filed { Filed (sink buf.old state) table.old }
    requires table_value { is_open (sink buf.old state) table.old ≡ true }
    ensures result_after { sink buf.new result ≡ push (sink buf.old state) (breach_of it.entry) }
    ensures filed_2 { Filed (sink buf.new result) table.new }
{
    let Some(slot) = find(buf, state, table, it) else {
        return state;
    };
    add_filed(buf, table, slot, state, it)
}

// One breach where the table takes no more: the reports are asked one by one.
fn push_searched(buf: &mut [u8], table: &[u32], state: State, it: Report<'_>) -> State
    requires sound { Sound (sink buf.old state) }
    requires filed { Filed (sink buf.old state) table.now }
    requires table_value { is_open (sink buf.old state) table.now ≡ false }
    ensures result_after { sink buf.new result ≡ push (sink buf.old state) (breach_of it.entry) }
    ensures filed_2 { Filed (sink buf.new result) table.now }
{
    if seen(buf, state.count, it) {
        return state;
    }
    append_report(buf, state, it)
}

// One breach, where no report has its message and start: the table tells, and where it takes no
// more the reports do.
pub fn push(buf: &mut [u8], table: &mut [u32], state: State, it: Report<'_>) -> State
    requires { Lent (sink buf.old state) table.old }
    ensures { Pushed buf.old state (breach_of it.entry ∷ []) buf.new result table.new }
{
    if state.full {
        return state;
    }
    if is_open(buf, table, state) {
        return push_filed(buf, table, state, it);
    }
    push_searched(buf, table, state, it)
}
