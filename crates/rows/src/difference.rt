//! The first place in which two values differ, in words.
use std::alloc::{AllocError, Global};

// The first line in which they differ, told; lines are counted from 1.
fn told_line(alloc: Global, what: &str, got: &str, want: &str) -> Result<String, AllocError> {
    let mut lines = got.split('\n').zip(want.split('\n'));
    let Some(index) = lines.position(|(line, other)| line != other) else {
        let (len, wanted) = (got.len(), want.len());
        return format!(in alloc;
            "{what}: {len} bytes for {wanted}, and the shorter one begins the other"
        );
    };
    let number = index.saturating_add(1);
    let line = got.split('\n').nth(index).unwrap_or("");
    let other = want.split('\n').nth(index).unwrap_or("");
    format!(in alloc; "{what}, line {number}: {line:?} for {other:?}")
}

/// The first line in which a text differs from the one that is wanted.
pub fn text_difference(
    alloc: Global,
    what: &str,
    got: &str,
    want: &str,
) -> Result<Option<String>, AllocError> {
    if got == want {
        return Ok(None);
    }
    Ok(Some(told_line(alloc, what, got, want)?))
}

/// The first place in which bytes differ from those that are wanted, counted from 0.
pub fn bytes_difference(
    alloc: Global,
    what: &str,
    got: &[u8],
    want: &[u8],
) -> Result<Option<String>, AllocError> {
    if got == want {
        return Ok(None);
    }
    let same = got.iter().zip(want).take_while(|(a, b)| a == b).count();
    let (len, wanted) = (got.len(), want.len());
    Ok(Some(format!(in alloc; "{what}: {len} bytes for {wanted}, the first {same} are the same")?))
}

/// That a number is another one than is wanted.
pub fn number_difference(
    alloc: Global,
    what: &str,
    got: u64,
    want: u64,
) -> Result<Option<String>, AllocError> {
    if got == want {
        return Ok(None);
    }
    Ok(Some(format!(in alloc; "{what}: {got} for {want}")?))
}

/// That a truth is another one than is wanted.
pub fn truth_difference(
    alloc: Global,
    what: &str,
    got: bool,
    want: bool,
) -> Result<Option<String>, AllocError> {
    if got == want {
        return Ok(None);
    }
    Ok(Some(format!(in alloc; "{what}: {got} for {want}")?))
}
