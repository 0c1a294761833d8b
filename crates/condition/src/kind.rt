// The kinds of conditions, terms and aggregates, by the byte that one begins with (document 01).
//
// The variants stand in the order of their bytes, so that a byte is turned into a kind by one test
// of its range and at most one subtraction.
ghost use Rattle.std.specs.Prelude.{◌≡◌};
ghost use Rattle.condition.specs.Kinds.{Decodes, kind_number, term_kind_number, aggregate_kind_number};

use names::Refusal;

#[derive(Clone, Copy, PartialEq)]
pub enum Kind {
    And = 1,
    Or = 2,
    Not = 3,
    Formerly = 4,
    Previous = 5,
    Since = 6,
    Predicate = 7,
    Comparison = 8,
    Exists = 9,
    Timepoint = 10,
    Call = 11,
    SigilRef = 12,
    Refine = 13,
}

#[derive(Clone, Copy)]
pub enum TermKind {
    Entity,
    Integer,
    Decimal,
    String,
    Bool,
    ContextField,
    ScopeField,
    Var,
    Wildcard,
    Array,
    Aggregate,
    Arith,
    ParamRef,
    BinderRef,
}

#[derive(Clone, Copy, PartialEq)]
pub enum AggregateKind {
    Sum,
    Count,
    Call,
}

// The kind of a condition that a byte stands for: one of 1 to 13.
impl TryFrom<u8> for Kind {
    type Error = Refusal;

    ghost try_from_gives = { Decodes kind_number 13 };

    fn try_from(byte: u8) -> Result<Self, Refusal> {
        match byte {
            1 => Ok(Kind::And),
            2 => Ok(Kind::Or),
            3 => Ok(Kind::Not),
            4 => Ok(Kind::Formerly),
            5 => Ok(Kind::Previous),
            6 => Ok(Kind::Since),
            7 => Ok(Kind::Predicate),
            8 => Ok(Kind::Comparison),
            9 => Ok(Kind::Exists),
            10 => Ok(Kind::Timepoint),
            11 => Ok(Kind::Call),
            12 => Ok(Kind::SigilRef),
            13 => Ok(Kind::Refine),
            _ => Err(Refusal::UndefinedChoice),
        }
    }
}

// The byte that a condition of the kind begins with.
impl From<Kind> for u8 {
    ghost from_gives = { λ kind byte. byte ≡ kind_number kind };

    fn from(kind: Kind) -> u8 {
        kind as u8
    }
}

// The kind of a term that a byte stands for: one of 1 to 14.
impl TryFrom<u8> for TermKind {
    type Error = Refusal;

    ghost try_from_gives = { Decodes term_kind_number 14 };

    fn try_from(byte: u8) -> Result<Self, Refusal> {
        match byte {
            1 => Ok(TermKind::Entity),
            2 => Ok(TermKind::Integer),
            3 => Ok(TermKind::Decimal),
            4 => Ok(TermKind::String),
            5 => Ok(TermKind::Bool),
            6 => Ok(TermKind::ContextField),
            7 => Ok(TermKind::ScopeField),
            8 => Ok(TermKind::Var),
            9 => Ok(TermKind::Wildcard),
            10 => Ok(TermKind::Array),
            11 => Ok(TermKind::Aggregate),
            12 => Ok(TermKind::Arith),
            13 => Ok(TermKind::ParamRef),
            14 => Ok(TermKind::BinderRef),
            _ => Err(Refusal::UndefinedChoice),
        }
    }
}

// The kind of an aggregate that a byte stands for: one of 1 to 3.
impl TryFrom<u8> for AggregateKind {
    type Error = Refusal;

    ghost try_from_gives = { Decodes aggregate_kind_number 3 };

    fn try_from(byte: u8) -> Result<Self, Refusal> {
        match byte {
            1 => Ok(AggregateKind::Sum),
            2 => Ok(AggregateKind::Count),
            3 => Ok(AggregateKind::Call),
            _ => Err(Refusal::UndefinedChoice),
        }
    }
}
