//! Names that imports begin with, each once.
ghost use Rattle.std.specs.Prelude.{◌≡◌, ◌++◌, ◌∷◌, [], IfOk, OnOk, if◌then◌else◌, is_some};
ghost use Rattle.std.specs.BTreeMap.{insert_entry};
ghost use Rattle.values.specs.Map.{look_up};
ghost use Rattle.glue_published.specs.Reexports.{import_order};
ghost use Rattle.glue_names.specs.Once as spec;

use glue_published::copied_import;
use glue_shared::JsImportName;
use std::alloc::{AllocError, Global};
use values::{Map, Seq};

// Adds a name, where it hasn't come yet.
fn push_new(
    alloc: Global,
    seen: &mut Map<JsImportName, ()>,
    name: &JsImportName,
    once: &mut Seq<JsImportName>,
) -> Result<(), AllocError>
    ensures seen { OnOk result (seen.new ≡ insert_entry import_order seen.old name.now tt) }
    ensures pushed { OnOk result (once.new ≡ once.old ++ (if is_some (look_up import_order seen.old name.now) then [] else name.now ∷ [])) }
{
    if seen.insert(copied_import(alloc, name)?, ())?.is_none() {
        once.push(copied_import(alloc, name)?)?;
    }
    Ok(())
}

/// Each of these names once, where it comes first. Want of memory is the only error.
pub fn each_once(alloc: Global, list: &[JsImportName]) -> Result<Seq<JsImportName>, AllocError>
    ensures once { IfOk result (λ once. once ≡ spec.each_once list.now) }
{
    let mut seen = Map::new(alloc);
    let mut once = Seq::new(alloc);
    for name in list {
        push_new(alloc, &mut seen, name, &mut once)?;
    }
    Ok(once)
}

// The set of these names.
fn seen_names(alloc: Global, before: &[JsImportName]) -> Result<Map<JsImportName, ()>, AllocError>
    ensures seen { IfOk result (λ seen. (name : JsImportName) → is_some (look_up import_order seen name) ≡ spec.has_name name before.now) }
{
    let mut seen = Map::new(alloc);
    for name in before {
        seen.insert(copied_import(alloc, name)?, ())?;
    }
    Ok(seen)
}

/// Each of these names that isn't among those before, once, where it comes first. Want of memory is the only error.
pub fn each_new(
    alloc: Global,
    before: &[JsImportName],
    list: &[JsImportName],
) -> Result<Seq<JsImportName>, AllocError>
    ensures new { IfOk result (λ new. new ≡ spec.each_new before.now list.now) }
{
    let mut seen = seen_names(alloc, before)?;
    let mut new = Seq::new(alloc);
    for name in list {
        push_new(alloc, &mut seen, name, &mut new)?;
    }
    Ok(new)
}
