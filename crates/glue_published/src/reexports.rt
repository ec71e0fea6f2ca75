//! Re-exports of what can't be exported again.
ghost use Rattle.std.specs.Prelude.{◌≡◌, ◌||◌, ℕ, List, [], true, IfOk, OnOk};
ghost use Rattle.std.specs.Option.{option_copied};
ghost use Rattle.glue_faults.specs.First.{first_after};
ghost use Rattle.glue_targets.specs.RoleWords as role_words;
ghost use Rattle.glue_published.specs.Reexports as spec;
ghost use Rattle.glue_published.specs.Sets.{AreNames, holds};

use crate::imports::copied_import;
use crate::things::{PublishedThing, published_things};
use glue_faults::Fault;
use glue_shared::{JsImport, JsImportName, Settings, Target, WasmBindgenAux};
use std::alloc::{AllocError, Global};
use values::{Duplicate, Map, Text};

// A name, its import, and whether it is declared in TypeScript.
type Reexport = (Text, JsImport, bool);

fn is_es_module(target: &Target) -> bool
    ensures test { result ≡ role_words.is_es_module target.now }
{
    match target {
        Target::Bundler { .. } | Target::Web | Target::Deno | Target::Module => true,
        Target::Node { module } => *module,
        Target::NoModules { .. } | Target::Emscripten => false,
    }
}

/// Whether what an import begins with is a name of the outside, so that no line of the glue file binds it: a global, and where imports
/// are left out a name from a module.
pub fn is_outside(omitted: bool, name: &JsImportName) -> bool
    ensures test { result ≡ spec.is_outside omitted name.now }
{
    match name {
        JsImportName::Global { .. } => true,
        JsImportName::Module { .. }
        | JsImportName::LocalModule { .. }
        | JsImportName::InlineJs { .. } => omitted,
        JsImportName::VendorPrefixed { .. } => false,
    }
}

// Whether nothing can re-export the import.
fn is_bad_import(settings: &Settings, import: &JsImport) -> bool
    ensures test { result ≡ spec.is_bad_import settings.now import.now }
{
    !import.fields.is_empty()
        || is_es_module(&settings.target) && is_outside(settings.omit_imports, &import.name)
}

// Adds the first segment of a path that has more.
fn add_parent(alloc: Global, set: &mut Map<Text, bool>, path: &[Text]) -> Result<(), AllocError>
    ensures added { OnOk result ((name : List ℕ) → holds set.new name ≡ (spec.is_below name path.now || holds set.old name)) }
{
    if let Some((segment, rest)) = path.split_first() {
        if !rest.is_empty() {
            set.insert(segment.copy(alloc)?, true)?;
        }
    }
    Ok(())
}

/// The names below which something is published. Want of memory is the only error.
pub(crate) fn parents(
    alloc: Global,
    things: &[PublishedThing],
) -> Result<Map<Text, bool>, AllocError>
    ensures parents { IfOk result (λ set. AreNames set (spec.has_members things.now)) }
{
    let mut set = Map::new(alloc);
    for thing in things {
        add_parent(alloc, &mut set, thing.path.as_slice())?;
    }
    Ok(set)
}

// Whether something is published below the name, where the set holds such names.
fn is_parent(parents: &Map<Text, bool>, name: &Text) -> bool
    ensures test { result ≡ holds parents.now name.now }
{
    parents.get(name).is_some()
}

// The imports of the re-exports that come before another.
#[derive(Drop)]
struct SeenImports {
    all: Map<JsImportName, bool>,
    // Those of names below which something is published.
    with_members: Map<JsImportName, bool>,
}

// Adds an import, where a test holds.
fn add_import(
    alloc: Global,
    set: &mut Map<JsImportName, bool>,
    test: bool,
    name: &JsImportName,
) -> Result<(), AllocError>
    ensures added { OnOk result (set.new ≡ spec.with_import test set.old name.now) }
{
    if test {
        set.insert(copied_import(alloc, name)?, true)?;
    }
    Ok(())
}

impl SeenImports {
    fn new(alloc: Global) -> SeenImports
        ensures all { result.all ≡ [] }
        ensures with_members { result.with_members ≡ [] }
    {
        SeenImports {
            all: Map::new(alloc),
            with_members: Map::new(alloc),
        }
    }

    // Whether nothing can re-export the import, or it came before, where something is published below the name then or now.
    fn is_bad(&self, settings: &Settings, has_members: bool, import: &JsImport) -> bool
        ensures test { result ≡ (spec.is_bad_import settings.now import.now || spec.meets_import self.now.all self.now.with_members has_members import.now.name) }
    {
        is_bad_import(settings, import)
            || self.with_members.get(&import.name).is_some()
            || has_members && self.all.get(&import.name).is_some()
    }

    fn add(
        &mut self,
        alloc: Global,
        has_members: bool,
        name: &JsImportName,
    ) -> Result<(), AllocError>
        ensures all { OnOk result (self.new.all ≡ spec.with_import true self.old.all name.now) }
        ensures with_members { OnOk result (self.new.with_members ≡ spec.with_import has_members self.old.with_members name.now) }
    {
        add_import(alloc, &mut self.all, true, name)?;
        add_import(alloc, &mut self.with_members, has_members, name)?;
        Ok(())
    }
}

// The first bad re-export. The set holds the names below which something is published.
fn first_by_parents<'a>(
    alloc: Global,
    settings: &Settings,
    parents: &Map<Text, bool>,
    reexports: &'a [Reexport],
) -> Result<Option<&'a Reexport>, AllocError>
    ensures first { IfOk result (λ found. option_copied found ≡ first_after (spec.is_bad_reexport settings.now (holds parents.now)) [] reexports.now) }
{
    let mut seen = SeenImports::new(alloc);
    for reexport in reexports {
        let has_members = is_parent(parents, &reexport.0);
        if seen.is_bad(settings, has_members, &reexport.1) {
            return Ok(Some(reexport));
        }
        seen.add(alloc, has_members, &reexport.1.name)?;
    }
    Ok(None)
}

// The same, where these things are published.
fn first_bad<'a>(
    alloc: Global,
    settings: &Settings,
    things: &[PublishedThing],
    reexports: &'a [Reexport],
) -> Result<Option<&'a Reexport>, AllocError>
    ensures first { IfOk result (λ found. option_copied found ≡ first_after (spec.is_bad_reexport settings.now (spec.has_members things.now)) [] reexports.now) }
{
    let parents = parents(alloc, things)?;
    let found = first_by_parents(alloc, settings, &parents, reexports)?;
    Ok(found)
}

/// The first re-export that can't be: its import has fields; or the target's glue file is an ES module, and its import is a global,
/// or where imports are left out a name from a module; or an earlier re-export is of the same import, and something is published
/// below the name of one of the two. Want of memory is the only error.
pub fn bad_reexport(
    alloc: Global,
    settings: &Settings,
    aux: &WasmBindgenAux,
) -> Result<Option<Fault>, AllocError>
    ensures fault { IfOk result (λ fault. fault ≡ spec.bad_reexport settings.now aux.now) }
{
    let things = published_things(alloc, settings, aux)?;
    match first_bad(alloc, settings, things.as_slice(), aux.reexports.as_slice())? {
        None => Ok(None),
        Some(reexport) => Ok(Some(Fault::BadReexport {
            name: reexport.0.copy(alloc)?,
        })),
    }
}
