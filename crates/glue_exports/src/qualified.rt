//! Qualified names.
ghost use Rattle.std.specs.Prelude.{◌≡◌, IfOk};
ghost use Rattle.glue_shared.specs.Paths as paths;

use std::alloc::{AllocError, Global};
use values::Text;

/// The segments of a namespace and a name, joined by `__`. Want of memory is the only error.
pub fn qualified_name(alloc: Global, namespace: &[Text], name: &str) -> Result<Text, AllocError>
    ensures name { IfOk result (λ joined. joined ≡ paths.qualified_name namespace.now name.now) }
{
    let mut joined = Text::from_str(alloc, "")?;
    for segment in namespace {
        joined.push_str(segment.as_str())?;
        joined.push_str("__")?;
    }
    joined.push_str(name)?;
    Ok(joined)
}
