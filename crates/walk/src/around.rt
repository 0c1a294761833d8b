// A name among the binders around a reached condition: the last of that name in the innermost list that has it.
ghost use Rattle.std.specs.Prelude.{◌≡◌, true, [], ◌∷◌, ◌<◌, length};
ghost use Rattle.condition.specs.Walk.{last_named};
ghost use Rattle.condition.specs.Places.{is_binder, binder_in};
ghost use Rattle.nodes.specs.Parts.{is_binders, binders_in, BoundBy};
ghost use Rattle.walk.specs.Scopes.{own};
ghost use Rattle.walk.specs.Index.{nodes_of};
ghost use Rattle.walk.specs.Enclosing.{is_bound, later_of, IsHolder, held_in, around_at, Bodies};

use crate::lists::{bound_entered, entry_of};
use nodes::{Bound, SlotAt, binders_at, bound_at, first_part, past_binder, past_slot, slot_at};

// Whether a name is bound.
#[tactic(auto, unfolding(crate::specs::Enclosing::is_bound))]
fn is_bound(found: Bound) -> bool
    ensures { result ≡ is_bound found }
{
    !matches!(found, Bound::Nothing)
}

// Of two answers, the later if it binds the name.
fn later(before: Bound, here: Bound) -> Bound
    ensures { result ≡ later_of before here }
{
    if is_bound(here) {
        return here;
    }
    before
}

// What one binder says of a name.
fn bound_one(s: &[u8], at: usize, name: &[u8]) -> Bound
    requires { is_binder s.now at ≡ true }
    ensures { BoundBy s.now (last_named name.now (binder_in s.now at ∷ [])) result }
{
    let SlotAt::Named(p) = slot_at(s, at) else {
        return Bound::Nothing;
    };
    if names::same(names::word(s, p), name) {
        return bound_at(s, past_slot(s, at));
    }
    Bound::Nothing
}

// The last binder of a name among those whose count stands there.
pub fn bound_among(s: &[u8], start: usize, name: &[u8]) -> Bound
    requires { is_binders s.now start ≡ true }
    ensures { BoundBy s.now (last_named name.now (binders_in s.now start)) result }
{
    let mut found = Bound::Nothing;
    let mut at = start + 1;
    for _ in 0..names::wide(s[start]) {
        let here = bound_one(s, at, name);
        found = later(found, here);
        at = past_binder(s, at);
    }
    found
}

// Among those of an Exists or an aggregate: in its list, where it has one.
// The first byte alone tells an Exists from an aggregate, as `list_holder` of `lists` says.
fn bound_held(s: &[u8], table: &[u16], at: usize, name: &[u8]) -> Bound
    requires bodies { Bodies s.now table.now }
    requires holder { IsHolder s.now at }
    ensures { BoundBy s.now (last_named name.now (held_in s.now at)) result }
{
    if s[at] == 9 {
        return bound_one(s, first_part(s, at), name);
    }
    match entry_of(table, at) {
        Some(entry) => bound_entered(s, table, entry, name),
        None => bound_among(s, binders_at(s, at), name),
    }
}

// Among those around a reached condition: from its row on, holder by holder outwards.
pub fn bound_around(s: &[u8], table: &[u16], node: usize, name: &[u8]) -> Bound
    requires bodies { Bodies s.now table.now }
    requires node_in_bounds { node < length (nodes_of s.now) }
    ensures { BoundBy s.now (last_named name.now (around_at own s.now node)) result }
{
    let mut row = node;
    // It ends in two places, at the outermost row and at a binder of the name: it stays a `loop`.
    loop {
        let i = 2 * row;
        let holder = usize::from(table[i]);
        if holder == 0 {
            return Bound::Nothing;
        }
        let found = bound_held(s, table, holder, name);
        if is_bound(found) {
            return found;
        }
        row = usize::from(table[i + 1]);
    }
}
