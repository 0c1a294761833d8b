// The record that bytes are by their mark, the number that its reader refuses them by, and the place where that shows.
ghost use Rattle.std.specs.Prelude.{◌≡◌};
ghost use Rattle.offence.specs.Offence.{begins, mark_of, kind_of, record_of, number_of, place};

use crate::Kind;

// Whether bytes begin with a mark.
fn begins(bytes: &[u8], mark: &[u8]) -> bool
    ensures { result ≡ begins mark.now bytes.now }
{
    bytes.starts_with(mark)
}

// The mark of a record.
fn mark_of(kind: Kind) -> &'static [u8]
    ensures { result.now ≡ mark_of kind }
{
    match kind {
        Kind::Schema => b"DWS",
        Kind::Condition => b"DWC",
        Kind::Targets => b"DWT",
        Kind::Path => b"DWP",
    }
}

// Whether the mark of a record stands first. The kind and the bytes come one by one, here and
// below: the bytes may begin with another mark or with none, so that a struct of the two would keep
// no fact.
pub fn has_mark(kind: Kind, bytes: &[u8]) -> bool
    ensures { result ≡ begins (mark_of kind) bytes.now }
{
    begins(bytes, mark_of(kind))
}

// The record whose mark stands first. Bytes with no record's mark are refused alike by all four,
// and stand here as a path record. The three tests stay: a `find` over an array of the kinds was
// tried, and left its `ensures` open, also with `kind_of` unfolded.
#[tactic(auto, unfolding(crate::specs::Offence::kind_of))]
pub fn kind_of(bytes: &[u8]) -> Kind
    ensures { result ≡ kind_of bytes.now }
{
    if has_mark(Kind::Schema, bytes) {
        return Kind::Schema;
    }
    if has_mark(Kind::Condition, bytes) {
        return Kind::Condition;
    }
    if has_mark(Kind::Targets, bytes) {
        return Kind::Targets;
    }
    Kind::Path
}

// The number of a record: 1 schema, 2 condition, 3 targets, 4 path.
impl From<Kind> for u8 {
    ghost from_gives = { λ kind number. number ≡ record_of kind };

    fn from(kind: Kind) -> u8 {
        kind as u8
    }
}

// The number with which bytes are refused as a record of a kind, 0 for none. It is the documents'
// number and not the refusal itself: `place` speaks of it, and it is what is printed. Each kind has
// a reader of its own, and this is the one place that chooses among them: a table of functions
// would hold these four lines in the order of the kinds' numbers, which nothing would check.
pub fn number_of(kind: Kind, bytes: &[u8]) -> u8
    ensures { result ≡ number_of kind bytes.now }
{
    names::refusal_number(match kind {
        Kind::Schema => schema::read_schema(bytes),
        Kind::Condition => condition::read_condition(bytes),
        Kind::Targets => targets::read_targets(bytes),
        Kind::Path => targets::read_path(bytes),
    })
}

// The place where the number shows: each shorter front of the bytes only ends too early. It is
// halved in, since a front that ends too early has no front that does not. The loop stays: std's
// `partition_point` halves a slice, and the fronts stand in none. What ends too early is refused by
// the number 2, `Cut`, as `place` of the definitions says.
pub fn place_of(kind: Kind, bytes: &[u8]) -> usize
    ensures { result ≡ place (number_of kind) bytes.now }
{
    let mut low = 0;
    let mut high = bytes.len();
    while low < high {
        let middle = low + (high - low) / 2;
        if number_of(kind, names::part_of(bytes, 0, middle)) == 2 {
            low = middle + 1;
        } else {
            high = middle;
        }
    }
    low
}
