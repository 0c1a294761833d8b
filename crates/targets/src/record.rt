// Records of targets and of paths that were read: bytes that are known to be one, so that no
// function asks for it again.
//
// There is a struct for each record: the fact in it is the difference, and no type takes a fact as
// a parameter.
ghost use Rattle.std.specs.Prelude.{◌≡◌, true};
ghost use Rattle.targets.specs.Places.{are_targets, is_query};

#[derive(Clone, Copy)]
pub struct TargetsRecord<'a> {
    pub bytes: &'a [u8],
    pub ghost accepted: { are_targets bytes.now ≡ true },
}

#[derive(Clone, Copy)]
pub struct PathRecord<'a> {
    pub bytes: &'a [u8],
    pub ghost accepted: { is_query bytes.now ≡ true },
}
