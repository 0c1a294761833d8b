// The namespace of an action, as it is given with the action's id.
ghost use Rattle.std.specs.Prelude.{◌≡◌, true};
ghost use Rattle.names.specs.Fields.{string_of};
ghost use Rattle.names.specs.Names.{path_name};
ghost use Rattle.names.specs.Read.{is_row};

use names::Row;

// The names that stand in a row of some bytes, and are known to stand there.
#[derive(Clone, Copy)]
pub struct NameRow<'a> {
    pub bytes: &'a [u8],
    pub row: Row,
    pub ghost stand: { is_row (string_of path_name) bytes.now row.count row.at ≡ true },
}

// Given whole, or as its parts, which `::` joins.
#[derive(Clone, Copy)]
pub enum Namespace<'a> {
    Whole(&'a [u8]),
    Parts(NameRow<'a>),
}
