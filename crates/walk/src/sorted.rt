// A table of places, sorted by the names that stand there: a name is found by halving, and a place
// is put in.
ghost use Rattle.std.specs.Prelude.{◌≡◌, ◌+◌, ◌-◌, ◌/◌, ◌<◌, ◌≤◌, length, set};
ghost use Rattle.names.specs.Names.{order};
ghost use Rattle.names.specs.Order.{order_number};
ghost use Rattle.nodes.specs.Parts.{name_in};
ghost use Rattle.walk.specs.Environment.{Sorted, SpotOf, Inserted};

use std::cmp::Ordering;

// Where a name stands in the table, or else where it belongs: what is left to be searched stands
// between `low` and `high`. The library's `binary_search_by` halves on where the name was met, and
// a lookup took 1.3 times the time.
#[tactic(auto, using(crate::proofs::Spots::halving))]
pub fn spot(s: &[u8], table: &[u16], name: &[u8]) -> Result<usize, usize>
    requires { Sorted s.now table.now }
    ensures { SpotOf s.now table.now name.now result }
{
    let mut low = 0;
    let mut high = table.len();
    while low < high {
        let middle = low + (high - low) / 2;
        match names::compare(nodes::name_of(s, usize::from(table[middle])), name) {
            Ordering::Less => low = middle + 1,
            Ordering::Equal => return Ok(middle),
            Ordering::Greater => high = middle,
        }
    }
    Err(low)
}

// Another place in the i-th entry. A place fits by the contract, here and in `insert`, so that
// `u16::try_from` would bring an error that no caller can meet.
pub fn replace(table: &mut [u16], i: usize, place: usize)
    requires { (i < length table.old) × (place < 65536) }
    ensures { table.new ≡ set table.old i place }
{
    table[i] = place as u16;
}

// One entry more among the first n: those from `at` on move one on. The slice of the first n would
// have no room for it, so the number stands beside the table.
pub fn insert(table: &mut [u16], n: usize, at: usize, place: usize)
    requires { (at ≤ n) × (n < length table.old) × (place < 65536) }
    ensures { Inserted table.old n at place table.new }
{
    table.copy_within(at..n, at + 1);
    table[at] = place as u16;
}
