//! What a test makes, beside what it wants.
use std::process::Abort;

/// The text is this one.
pub fn assert_told<H: Abort, E: Drop>(
    rt: &H,
    told: Result<String, E>,
    want: &str,
) -> Result<(), E> {
    let told = told?;
    assert!(rt; told.as_str() == want, "{told:?} for {want:?}");
    Ok(())
}
