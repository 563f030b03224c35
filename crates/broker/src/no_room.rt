//! Want of memory for a broker.
ghost use Rattle.std.specs.Prelude.{◌≡◌};

use std::alloc::AllocError;

/// Memory is too short for a broker. The resource that it was to stand over is handed back.
#[derive(Clone, Copy, PartialEq, Eq, Debug, Drop)]
pub struct NoRoom<R> {
    pub error: AllocError,
    pub resource: R,
}

/// Lets the resource go.
impl<R: Drop> From<NoRoom<R>> for AllocError {
    ghost from_gives = { λ no_room error. error ≡ no_room.error };

    fn from(no_room: NoRoom<R>) -> AllocError {
        no_room.error
    }
}
