// The entity types that a scope chooses from.
ghost use Rattle.std.specs.Prelude.{◌≡◌, true};
ghost use Rattle.resolution.specs.Places.{are_types};

use names::Row;
use schema::SchemaRecord;
use targets::Narrowed;

// What a scope says of one side, by the schema that declares the entity types. A type name of the
// narrowing stands in the target record.
#[derive(Clone, Copy)]
pub struct Scope<'a> {
    pub schema: SchemaRecord<'a>,
    pub targets: &'a [u8],
    pub narrowing: Narrowed,
}

// Entity types that a scope chooses from: their names are known to stand in a row of the schema.
// Five functions take them without a path, so that no struct here has both: it is the `Question` of
// `lookup`.
#[derive(Clone, Copy)]
pub struct Candidates<'a> {
    pub scope: Scope<'a>,
    pub types: Row,
    pub ghost stand: { are_types scope.schema.bytes.now types ≡ true },
}
