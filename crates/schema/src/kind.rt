// The kinds of types, by the byte that a type begins with (document 01).
ghost use Rattle.schema.specs.Places.{Decodes};

use names::Refusal;

#[derive(Clone, Copy)]
pub enum TypeKind {
    Long,
    String,
    Bool,
    Extension,
    Set,
    AnySet,
    Record,
    Entity,
    SeveralEntities,
    AnyEntity,
    Never,
}

// The kind that a byte stands for: a byte above 10 stands for none.
impl TryFrom<u8> for TypeKind {
    type Error = Refusal;

    ghost try_from_gives = { Decodes };

    fn try_from(byte: u8) -> Result<Self, Refusal> {
        match byte {
            0 => Ok(TypeKind::Long),
            1 => Ok(TypeKind::String),
            2 => Ok(TypeKind::Bool),
            3 => Ok(TypeKind::Extension),
            4 => Ok(TypeKind::Set),
            5 => Ok(TypeKind::AnySet),
            6 => Ok(TypeKind::Record),
            7 => Ok(TypeKind::Entity),
            8 => Ok(TypeKind::SeveralEntities),
            9 => Ok(TypeKind::AnyEntity),
            10 => Ok(TypeKind::Never),
            _ => Err(Refusal::UndefinedChoice),
        }
    }
}
