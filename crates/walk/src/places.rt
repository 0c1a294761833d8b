// The reached conditions by their places.
ghost use Rattle.std.specs.Prelude.{◌≡◌, ◌<◌, length};
ghost use Rattle.walk.specs.Index.{Index, Reached};

// Where the i-th reached condition stands.
pub fn reached_at(s: &[u8], places: &[u16], i: usize) -> usize
    requires index { Index s.now places.now }
    requires i_in_bounds { i < length places.now }
    ensures { Reached s.now i result }
{
    usize::from(places[i])
}
