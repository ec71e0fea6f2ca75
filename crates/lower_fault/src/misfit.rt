//! The first thing that doesn't read.
use shown_names::shown;
use std::alloc::{AllocError, AllocFailed, Global};

/// A value that doesn't read.
#[derive(Drop)]
pub(crate) struct Misfit {
    /// The way to the value, from where it was looked for.
    pub(crate) path: String,
    /// What is said of it, to stand behind its path.
    pub(crate) words: String,
}

/// Why no value was passed.
#[derive(Drop)]
pub(crate) enum Told {
    Misfit(Misfit),
    OutOfMemory,
}

impl From<AllocError> for Told {
    fn from(_: AllocError) -> Self {
        Told::OutOfMemory
    }
}

impl<T: Drop> From<AllocFailed<T>> for Told {
    fn from(_: AllocFailed<T>) -> Self {
        Told::OutOfMemory
    }
}

/// That this is said of a value.
pub(crate) fn said_of(alloc: Global, words: String) -> Told {
    Told::Misfit(Misfit {
        path: String::new(alloc),
        words,
    })
}

// What doesn't read, with a step of its path more.
fn behind(alloc: Global, step: &str, misfit: Misfit) -> Result<Misfit, AllocError> {
    let Misfit { path, words } = misfit;
    let rest = path.as_str();
    let path = format!(in alloc; "{step}{rest}")?;
    Ok(Misfit { path, words })
}

fn stepped(alloc: Global, step: &str, misfit: Misfit) -> Told {
    match behind(alloc, step, misfit) {
        Ok(misfit) => Told::Misfit(misfit),
        Err(_) => Told::OutOfMemory,
    }
}

// Whether a key can stand behind a point.
fn is_plain(key: &str) -> bool {
    !key.is_empty()
        && key
            .bytes()
            .all(|byte| byte == b'_' || byte.is_ascii_lowercase())
}

// A key as a step of a path.
fn key_text(alloc: Global, key: &str) -> Result<String, AllocError> {
    if is_plain(key) {
        return format!(in alloc; ".{key}");
    }
    let key = shown(alloc, key)?;
    let key = key.as_str();
    format!(in alloc; "[{key}]")
}

fn key_step(alloc: Global, key: &str, misfit: Misfit) -> Told {
    match key_text(alloc, key) {
        Ok(step) => stepped(alloc, step.as_str(), misfit),
        Err(_) => Told::OutOfMemory,
    }
}

fn place_step(alloc: Global, place: usize, misfit: Misfit) -> Told {
    match format!(in alloc; "[{place}]") {
        Ok(step) => stepped(alloc, step.as_str(), misfit),
        Err(_) => Told::OutOfMemory,
    }
}

/// What was found in the value of a key, with the key before its path.
pub(crate) fn at_key(alloc: Global, key: &str, found: Result<(), Told>) -> Result<(), Told> {
    match found {
        Err(Told::Misfit(misfit)) => Err(key_step(alloc, key, misfit)),
        other => other,
    }
}

/// What was found in an entry of a list, with its place before its path, counted from 0.
pub(crate) fn at_place(alloc: Global, place: usize, found: Result<(), Told>) -> Result<(), Told> {
    match found {
        Err(Told::Misfit(misfit)) => Err(place_step(alloc, place, misfit)),
        other => other,
    }
}
