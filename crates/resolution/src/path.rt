// The segments of an attribute path, with the bytes that hold them.
ghost use Rattle.std.specs.Prelude.{◌≡◌, true};
ghost use Rattle.resolution.specs.Places.{are_segments};

use names::Row;

// A path whose segments are known to stand in the bytes.
#[derive(Clone, Copy)]
pub struct Path<'a> {
    pub bytes: &'a [u8],
    pub segments: Row,
    pub ghost stand: { are_segments bytes.now segments ≡ true },
}

// A path with a first segment, which stands at `head` in the bytes of the others.
#[derive(Clone, Copy)]
pub struct Headed<'a> {
    pub head: usize,
    pub rest: Path<'a>,
}
