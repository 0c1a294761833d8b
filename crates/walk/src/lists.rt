// Lists of binders, sorted by name, behind the rows of a table: a name is found in a long list by halving.
//
// An aggregate of at least four binders has a list: the places of its named binders, of each name the last one's. The lists stand one after the other behind the
// rows. A directory of them stands before the last entry of the table, which counts them: for each list the place of its aggregate, where it starts and how many
// entries it has. It grows from the end to the front, and the places in it ascend that way, so that an aggregate is found by halving too.
//
// Nothing that is promised depends on which aggregates have a list: among the binders of the others a name is looked up one by one. A record has room for all of
// them in 10,921 entries: behind its first five bytes it has at most 32,763, of which each reached condition takes nine for two entries, each named binder three
// for one, and each aggregate eleven for three; and there is a condition at least, so that the count has its entry too. Only at the end of a full record a list may
// be left out, for binders of it that have no name.
//
// There is no heap: one lent table of numbers holds the rows, the lists and their directory.
ghost use Rattle.std.specs.Prelude.{◌≡◌, true, ◌+◌, ◌*◌, ◌≤◌, ◌<◌, length, get_or, take};
ghost use Rattle.condition.specs.Walk.{last_named};
ghost use Rattle.condition.specs.Places.{is_aggregate, aggregate_in};
ghost use Rattle.nodes.specs.Kinds.{aggregate_kind_of};
ghost use Rattle.nodes.specs.Parts.{is_binders, binders_in, BoundBy};
ghost use Rattle.walk.specs.Enclosing.{IsHolder, held_in, entry_at, list_count, Bodies};
ghost use Rattle.walk.specs.Lists.{MaySort, SortedFrom, Entered, MayList, MoreLists, HolderIn, RowsOnly, IsEntry, EntryOf};

use crate::Directory;
use crate::flat::{bound_listed, declare_all};
use crate::index::enclosing;
use condition::ConditionRecord;
use nodes::{Bound, binders_at};

// Where the entry of the k-th list stands in a table of so many entries.
fn entry_at(size: usize, k: usize) -> usize
    requires { 3 * k + 4 ≤ size }
    ensures { result ≡ entry_at size k }
{
    size - (3 * k + 4)
}

// The binders whose count stands at `start`, sorted from `from` on: how many entries they have.
// What is promised is of the whole table, also of the entries beside the part, so that both ends
// stand here and no slice.
#[tactic(auto, using(crate::proofs::Directories::sorting))]
fn sort_binders(s: &[u8], start: usize, table: &mut [u16], from: usize, end: usize) -> usize
    requires start_value { is_binders s.now start ≡ true }
    requires may_sort { MaySort s.now start table.old from end }
    ensures { SortedFrom s.now (binders_in s.now start) table.old from end table.new result }
{
    declare_all(s, &mut table[from..end], 0, start)
}

// The entry of a list. The three fit by the contract: `u16::try_from` would bring an error that no
// caller can meet.
#[tactic(auto, using(crate::proofs::Directories::entering))]
fn enter(table: &mut [u16], entry: usize, place: usize, from: usize, count: usize)
    requires in_bounds { entry + 3 ≤ length table.old }
    requires place_bound { (place < 65536) × (from < 65536) × (count < 65536) }
    ensures { Entered table.old entry place from count table.new }
{
    table[entry] = place as u16;
    table[entry + 1] = from as u16;
    table[entry + 2] = count as u16;
}

// The list of an aggregate, where it is long and there is room. The directory stands beside the
// table that it is of: a struct of both keeps the `&mut`, and needs in each of these functions a
// clause that its reference is the one that it had.
#[tactic(auto, using(crate::proofs::Directories::listing))]
fn list_aggregate(s: &[u8], table: &mut [u16], lists: Directory, at: usize) -> Directory
    requires at_value { is_aggregate s.now at ≡ true }
    requires fact { aggregate_kind_of (aggregate_in s.now at) ≡ 3 → ⊥ }
    requires may_list { MayList s.now table.old lists }
    ensures { MoreLists s.now table.old lists.free table.new result }
{
    let start = binders_at(s, at);
    let most = names::wide(s[start]);
    let from = lists.free;
    let count = lists.count;
    if most < 4 {
        return lists;
    }
    if table.len() < from + most + 3 * count + 4 {
        return lists;
    }
    let entry = entry_at(table.len(), count);
    let n = sort_binders(s, start, table, from, entry);
    enter(table, entry, at, from, n);
    Directory {
        free: from + n,
        count: count + 1,
        last: at,
    }
}

// That of a holder: an Exists has none. What holds binders is a condition or an aggregate, and its
// first byte alone says which; so it is compared here, where it is not known of which of the two a
// kind may be asked.
#[tactic(auto, using(crate::proofs::Directories::listing_holder))]
fn list_holder(s: &[u8], table: &mut [u16], lists: Directory, at: usize) -> Directory
    requires holder { IsHolder s.now at }
    requires may_list { MayList s.now table.old lists }
    ensures { MoreLists s.now table.old lists.free table.new result }
{
    if s[at] == 9 {
        return lists;
    }
    list_aggregate(s, table, lists, at)
}

// That of the holder in a row, if it stands behind those that have a list. The first row of a holder is that of its body, so that none is left out.
#[tactic(auto, using(crate::proofs::Directories::listing_holder))]
fn list_row(s: &[u8], table: &mut [u16], lists: Directory, i: usize) -> Directory
    requires i_in_bounds { i < length table.old }
    requires holder_in { HolderIn s.now table.old i }
    requires may_list { MayList s.now table.old lists }
    ensures { MoreLists s.now table.old lists.free table.new result }
{
    let holder = usize::from(table[i]);
    if lists.last < holder {
        return list_holder(s, table, lists, holder);
    }
    lists
}

// Those of all rows.
fn list_rows(s: &[u8], table: &mut [u16], rows: usize)
    requires { RowsOnly s.now table.old rows }
    ensures { Bodies s.now table.new }
{
    let mut lists = Directory {
        free: rows,
        count: 0,
        last: 0,
    };
    for row in 0..rows / 2 {
        lists = list_row(s, table, lists, 2 * row);
    }
    let last = table.len() - 1;
    // The count fits by the contract, as the three do in `enter`.
    table[last] = lists.count as u16;
}

// The scopes of the whole record with the lists behind them: how many entries there are. 10,921 are room for any record.
pub fn bodies(condition: ConditionRecord<'_>, table: &mut [u16]) -> usize
    requires { 10921 ≤ length table.old }
    ensures fits { result ≤ length table.new }
    ensures bodies { Bodies condition.entry.bytes.now (take result table.new) }
{
    let rows = enclosing(condition, table);
    list_rows(condition.bytes, &mut table[..10921], rows);
    10921
}

// The entry of the list of an aggregate, if it has one. It is halved by hand: the entries stand
// three apart and from the end to the front, so that they are no slice with a `binary_search_by`.
pub fn entry_of(table: &[u16], at: usize) -> Option<usize>
    requires { 3 * list_count table.now < length table.now }
    ensures { EntryOf table.now at result }
{
    let size = table.len();
    let mut low = 0;
    let mut high = usize::from(table[size - 1]);
    while low < high {
        let middle = low.midpoint(high);
        let entry = entry_at(size, middle);
        let place = usize::from(table[entry]);
        if place == at {
            return Some(entry);
        }
        if place < at {
            low = middle + 1;
            continue;
        }
        high = middle;
    }
    None
}

// A name in the list of an entry.
#[tactic(auto, using(crate::proofs::Directories::entered_list))]
pub fn bound_entered(s: &[u8], table: &[u16], entry: usize, name: &[u8]) -> Bound
    requires bodies { Bodies s.now table.now }
    requires entry { IsEntry table.now entry }
    ensures { BoundBy s.now (last_named name.now (held_in s.now (get_or table.now entry 0))) result }
{
    let from = usize::from(table[entry + 1]);
    let end = from + usize::from(table[entry + 2]);
    bound_listed(s, &table[from..end], name)
}
