//! The generator, as the step of a setter that may refuse answers it.
ghost use Rattle.std.specs.Prelude.{◌≡◌};
ghost use Rattle.cli_support.specs.Setting.{released};

use crate::bindgen::Bindgen;
use crate::fault::SetFault;
use std::alloc::AllocError;

/// The generator, as the step of a setter answers it. Its contract can say what stands where the setter refuses.
#[derive(Drop)]
pub(crate) struct Held<'a> {
    pub(crate) at: &'a mut Bindgen,
}

// The generator itself.
pub(crate) fn release_set<'a>(held: Result<Held<'a>, SetFault>) -> Result<&'a mut Bindgen, SetFault>
    ensures same { result ≡ released held.entry }
{
    match held {
        Ok(held) => {
            let Held { at } = held;
            Ok(at)
        }
        Err(fault) => Err(fault),
    }
}

// The generator itself.
pub(crate) fn release_kept<'a>(
    held: Result<Held<'a>, AllocError>,
) -> Result<&'a mut Bindgen, AllocError>
    ensures same { result ≡ released held.entry }
{
    match held {
        Ok(held) => {
            let Held { at } = held;
            Ok(at)
        }
        Err(fault) => Err(fault),
    }
}
