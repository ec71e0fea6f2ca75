//! Which paths lead below the folder that they are read from.
ghost use Rattle.std.specs.Prelude.{◌≡◌, IfOk};
ghost use Rattle.planned_paths.specs.Paths as spec;

use std::alloc::{AllocError, Global};

// Whether the bytes of `needle` stand in others.
fn holds(needle: &[u8], bytes: &[u8]) -> bool
    ensures { result ≡ spec.holds needle.now bytes.now }
{
    let mut rest = bytes;
    'scan: while let Some((_, after)) = rest.split_first() {
        if rest.starts_with(needle) {
            return true;
        }
        rest = after;
    }
    rest.starts_with(needle)
}

fn has_names_alone(path: &str) -> bool
    ensures { result ≡ spec.has_names_alone path.now }
{
    path.as_bytes().iter().all(|byte| *byte != 0)
}

fn has_no_turn(framed: &[u8]) -> bool
    ensures { result ≡ spec.has_no_turn framed.now }
{
    !(holds(b"//", framed) || holds(b"/./", framed) || holds(b"/../", framed))
}

// Whether a path leads below the folder that it is read from.
pub(crate) fn is_below(alloc: Global, path: &str) -> Result<bool, AllocError>
    ensures { IfOk result (λ below. below ≡ spec.is_below path.now) }
{
    let framed = format!(in alloc; "/{path}/")?;
    Ok(has_names_alone(path) && has_no_turn(framed.as_str().as_bytes()))
}
