//! What is known of the input of a call that came to a fault.
use glue_shared::Lowered;

/// What is known of the input of a call that came to a fault. More of it gives better words.
#[derive(Clone, Copy)]
pub struct Known<'a> {
    /// The bytes that were handed in as the module.
    pub bytes: Option<&'a [u8]>,
    /// The module of the call with what is described of it. The ids that a fault names are its ids.
    pub lowered: Option<&'a Lowered>,
}
