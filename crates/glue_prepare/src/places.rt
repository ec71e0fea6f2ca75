//! Places as ids.
ghost use Rattle.std.specs.Prelude.{◌≡◌, IfOk};

use std::alloc::AllocError;

/// The number of the id of a place. Places past the last id stand for want of memory.
pub(crate) fn id_at(place: usize) -> Result<u32, AllocError>
    ensures id { IfOk result (λ id. id ≡ place) }
{
    if place < 4_294_967_296 {
        Ok(place as u32)
    } else {
        Err(AllocError)
    }
}
