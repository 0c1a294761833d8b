// A condition record that was read: bytes that are known to be one, so that no function asks for it
// again.
//
// There is a struct for each record: the fact in it is the difference, and no type takes a fact as
// a parameter.
ghost use Rattle.std.specs.Prelude.{◌≡◌, true};
ghost use Rattle.condition.specs.Places.{is_record};

#[derive(Clone, Copy)]
pub struct ConditionRecord<'a> {
    pub bytes: &'a [u8],
    pub ghost accepted: { is_record bytes.now ≡ true },
}
