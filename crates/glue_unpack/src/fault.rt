//! Why the files of a listing were not put into a folder.
ghost use Rattle.std.specs.Prelude.{◌≡◌};
ghost use Rattle.glue_unpack.specs.declared.fault.UnpackFault.TheVariants.{OutOfMemory};

use file_listing::ListingFault;
use std::alloc::AllocError;
use values::Text;

/// Why the files of a listing were not all put into a folder. The first four but `Put` come before a file is put.
#[derive(Debug, Drop)]
pub enum UnpackFault {
    /// The text is no listing.
    Listing(ListingFault),

    /// The first path that is absolute, has a step that is empty, `.` or `..`, or has a NUL.
    Astray(Text),

    /// The first path that is that of an earlier file, or is a folder of it, or leads into it.
    Clash(Text),

    /// The path of the file that could not be put. Those before it were.
    Put(Text),
    OutOfMemory,
}

impl From<AllocError> for UnpackFault {
    ghost from_gives = { λ _ e. e ≡ OutOfMemory };

    fn from(_: AllocError) -> Self {
        UnpackFault::OutOfMemory
    }
}
