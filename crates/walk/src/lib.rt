// The walk of a condition: the nodes that it reaches, and the binders that it passes, by name.
//
// | module | what it has |
// |---|---|
// | index | `index_record(condition, table)`: the places of the reached conditions in walk order, `Index s (take r table)`; `enclosing(condition, table)`: for each reached condition what holds the innermost binders around it, and the row of the condition that this stands in, `Enclosing s (take r table)` |
// | places | `reached_at(s, places, i)`: `Reached` |
// | flat | `environment(condition, places, table)`: the last binder of each name, sorted by name, `Environment s (binders (record_in s)) (take r table)`; `bound_in(s, table, name)`: `BoundBy` of `last_named name (binders (record_in s))`, by halving |
// | lists | `bodies(condition, table)`: the rows of `enclosing`, and behind them the binders of each long list, sorted by name, `Bodies s (take r table)`; `entry_of(table, at)`, `bound_entered(s, table, entry, name)`: the list of an aggregate, and a name in it |
// | around | `bound_around(s, table, node, name)`: `BoundBy` of `last_named name (around_at own s node)`, holder by holder, a long list by halving; `bound_among(s, at, name)`: of `last_named name (binders_in s at)` |
// | either | `binding_of(rules)`: what a caller chooses; `names_of(binding, condition, places, table)`, `bound_by(binding, s, table, node, name)`: either of the two, by the caller's choice: `Names s (binding_in binding) (take r table)`, `BoundBy` of `last_named name (around_at (binding_in binding) s node)` |
// | sorted | a table of places that is sorted by name: `spot`, `replace`, `insert` |
//
// What stands at a place of the record (`is_condition`, `is_binder`, `is_binders`) is asked as in
// `nodes`, whose heading says why.
//
// `Index` is a fact about the bytes of a record and a table of places, and each function that needs
// it asks for it. It is no ghost field of a struct here: the crate that hands the places on
// furthest keeps the fact in a struct of all that it hands on (`Run` of `typecheck`), and a struct
// of the two alone would stand within that one, to be taken apart at each call.
//
// `Names` and `Bodies` of a table that is filled may be truncated (`specs/Laws/Mere`), and the
// crates above keep them so in a struct of the node that they look at, of which the table is one
// part. A struct of bytes and table alone would be made at each call here, to be taken apart at
// once.
//
// `MayList` is about a table that is being filled: a struct that keeps the `&mut` of one needs in
// each function a clause that its reference is the one that it had.
#![tactic(auto)]

mod around;
mod either;
mod flat;
mod index;
mod lists;
mod places;
mod sorted;

pub use around::{bound_among, bound_around};
pub use either::{binding_of, bound_by, names_of};
pub use flat::{bound_in, environment};
pub use index::{enclosing, index_record};
pub use lists::bodies;
pub use places::reached_at;

// What the index of a part of a condition is: the place behind the part, and the entries that the table has.
#[derive(Clone, Copy)]
pub struct Indexed {
    pub next: usize,
    pub count: usize,
}

// The scope of a reached condition: where what holds the innermost binders around it stands, and
// the row of the reached condition that this stands in. Where there are none, the place is 0: an
// entry of 16 bits holds it, and at 0 stands the mark.
#[derive(Clone, Copy)]
pub struct Scope {
    pub holder: usize,
    pub node: usize,
}

// What a walk puts into the row of a reached condition: its scope, or its place where none is
// asked for.
pub type Row = Option<Scope>;

// How a name is bound: by the last binder of that name in the whole condition, or by the innermost one around its use.
#[derive(Clone, Copy)]
pub enum Binding {
    Flat,
    Own,
}

// The sorted lists of a table: where the next one starts, how many there are, and the place of the aggregate that has the last.
#[derive(Clone, Copy)]
pub struct Directory {
    pub free: usize,
    pub count: usize,
    pub last: usize,
}
