// A call with the memory that its answer will need.
ghost use Rattle.desk.specs.Rooms.{room_of};
ghost use Rattle.std.specs.Prelude.{◌≡◌, vec_len};

use crate::calls::Call;

// The buffer of a path that is to be shown; any other call has an empty one.
#[derive(Drop)]
pub struct Task<'a> {
    pub(crate) call: Call<'a>,
    pub(crate) path: Vec<u16>,
    ghost fits: { vec_len path ≡ room_of call },
}
