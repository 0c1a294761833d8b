// What a lookup asks, the records that it asks it of, and the answer.
ghost use Rattle.resolution.specs.Places.{small_path};
ghost use Rattle.lookup.specs.Small.{said, small_once};

use resolution::{Candidates, Path, ScopePath};
use schema::SchemaRecord;
use targets::{PathRecord, TargetsRecord};

// The three records of a lookup, each read in full.
#[derive(Clone, Copy)]
pub struct Records<'a> {
    pub schema: SchemaRecord<'a>,
    pub targets: TargetsRecord<'a>,
    pub query: PathRecord<'a>,
}

// A path under a scope: the entity types that the action names on the side, and the segments of the
// path record.
#[derive(Clone, Copy)]
pub struct Question<'a> {
    pub candidates: Candidates<'a>,
    pub path: Path<'a>,
}

// An answer with its question: a type of the answer is small, so that its text is short.
#[derive(Clone, Copy)]
pub struct Answered<'a> {
    pub question: Question<'a>,
    pub answer: ScopePath,
    pub ghost small: { small_path (said question answer) } by { small_once (said question answer) },
}
