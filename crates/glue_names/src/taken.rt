//! Names that the glue file may not declare as it likes, bound in a scope once: those of the outside, and those that each glue file may bind.
ghost use Rattle.std.specs.Prelude.{◌≡◌, ◌++◌, IfOk, map};
ghost use Rattle.std.specs.Fmt.{decimal};
ghost use Rattle.std.specs.List.{flat_map, list_any};
ghost use Rattle.std.specs.FinSet as set;
ghost use Rattle.values.specs.TextSet.{with_texts};
ghost use Rattle.glue_shared.specs.Names as names;
ghost use Rattle.glue_names.specs.Omitted.{name_where};
ghost use Rattle.glue_names.specs.Taken as spec;

use glue_scope::Names;
use glue_shared::{
    AdapterId, AuxImport, AuxStruct, EMSCRIPTEN_HOSTS, HELPER_NAMES, HOSTS, JsImport, JsImportName,
    Lowered, MEMORY_NAMES, Settings, TABLE_NAMES, TARGET_NAMES, Target, WasmBindgenAux, js_import,
    live_count,
};
use std::alloc::{AllocError, Global};
use values::Text;
use wasm_core::Module;

/// With a name. Want of memory is the only error.
pub fn with_name<N: Names>(scope: N, name: &str) -> Result<N, AllocError>
    ensures bound { IfOk result (λ more. N.bound more ≡ set.insert (N.bound scope) name.now) }
{
    let mut more = scope;
    more.reserve(name)?;
    Ok(more)
}

// With each of these names.
fn with_names<N: Names>(scope: N, words: &[&str]) -> Result<N, AllocError>
    ensures bound { IfOk result (λ more. N.bound more ≡ with_texts (N.bound scope) (map (λ w. w.now) words.now)) }
{
    let mut more = scope;
    for word in words {
        more = with_name(more, word)?;
    }
    Ok(more)
}

/// With each of these texts. Want of memory is the only error.
pub fn with_each<N: Names>(scope: N, texts: &[Text]) -> Result<N, AllocError>
    ensures bound { IfOk result (λ more. N.bound more ≡ with_texts (N.bound scope) texts.now) }
{
    let mut more = scope;
    for text in texts {
        more = with_name(more, text.as_str())?;
    }
    Ok(more)
}

// With a name of two parts.
fn with_joined<N: Names>(alloc: Global, scope: N, front: &str, rest: &str) -> Result<N, AllocError>
    ensures bound { IfOk result (λ more. N.bound more ≡ set.insert (N.bound scope) (front.now ++ rest.now)) }
{
    let mut joined = Text::from_str(alloc, front)?;
    joined.push_str(rest)?;
    with_name(scope, joined.as_str())
}

// With a name after each of these.
fn with_prefixes<N: Names>(
    alloc: Global,
    scope: N,
    prefixes: &[Text],
    name: &str,
) -> Result<N, AllocError>
    ensures bound { IfOk result (λ more. N.bound more ≡ with_texts (N.bound scope) (map (λ prefix. prefix ++ name.now) prefixes.now)) }
{
    let mut more = scope;
    for prefix in prefixes {
        more = with_joined(alloc, more, prefix.as_str(), name)?;
    }
    Ok(more)
}

// With a name, where it counts.
fn with_name_where<N: Names>(scope: N, counts: bool, name: &str) -> Result<N, AllocError>
    ensures bound { IfOk result (λ more. N.bound more ≡ with_texts (N.bound scope) (name_where counts name.now)) }
{
    if counts {
        with_name(scope, name)
    } else {
        Ok(scope)
    }
}

// With the names of the outside that a described name brings.
fn with_described<N: Names>(
    alloc: Global,
    scope: N,
    omitted: bool,
    described: &JsImportName,
) -> Result<N, AllocError>
    ensures bound { IfOk result (λ more. N.bound more ≡ with_texts (N.bound scope) (names.described_hosts omitted described.now)) }
{
    match described {
        JsImportName::Global { name } => with_name(scope, name.as_str()),
        JsImportName::Module { name, .. }
        | JsImportName::LocalModule { name, .. }
        | JsImportName::InlineJs { name, .. } => with_name_where(scope, omitted, name.as_str()),
        JsImportName::VendorPrefixed { name, prefixes } => {
            let more = with_name(scope, name.as_str())?;
            with_prefixes(alloc, more, prefixes.as_slice(), name.as_str())
        }
    }
}

// With the names of the outside that what an import evaluates brings.
#[tactic(auto, using(crate::proofs::TakenNames::brought_none, crate::proofs::TakenNames::brought_some))]
fn with_brought<N: Names>(
    alloc: Global,
    scope: N,
    omitted: bool,
    what: &AuxImport,
) -> Result<N, AllocError>
    ensures bound { IfOk result (λ more. N.bound more ≡ with_texts (N.bound scope) (spec.brought omitted what.now)) }
{
    match js_import(what) {
        None => Ok(scope),
        Some(js) => with_described(alloc, scope, omitted, &js.name),
    }
}

// With those that imports bring.
fn with_imports<N: Names>(
    alloc: Global,
    scope: N,
    omitted: bool,
    imports: &[(AdapterId, AuxImport)],
) -> Result<N, AllocError>
    ensures bound { IfOk result (λ more. N.bound more ≡ with_texts (N.bound scope) (flat_map (λ i. spec.brought omitted i.1) imports.now)) }
{
    let mut more = scope;
    for import in imports {
        more = with_brought(alloc, more, omitted, &import.1)?;
    }
    Ok(more)
}

// With those that re-exports bring.
fn with_reexports<N: Names>(
    alloc: Global,
    scope: N,
    omitted: bool,
    reexports: &[(Text, JsImport, bool)],
) -> Result<N, AllocError>
    ensures bound { IfOk result (λ more. N.bound more ≡ with_texts (N.bound scope) (flat_map (λ r. names.described_hosts omitted r.1.name) reexports.now)) }
{
    let mut more = scope;
    for reexport in reexports {
        more = with_described(alloc, more, omitted, &reexport.1.name)?;
    }
    Ok(more)
}

// With those that a target has beside those of each target.
fn with_target_hosts<N: Names>(scope: N, target: &Target) -> Result<N, AllocError>
    ensures bound { IfOk result (λ more. N.bound more ≡ with_texts (N.bound scope) (names.target_hosts target.now)) }
{
    match target {
        Target::Emscripten => with_names(scope, &EMSCRIPTEN_HOSTS),
        Target::Bundler { .. }
        | Target::Web
        | Target::NoModules { .. }
        | Target::Node { .. }
        | Target::Deno
        | Target::Module => Ok(scope),
    }
}

fn is_node(target: &Target) -> bool
    ensures test { result ≡ names.is_node target.now }
{
    matches!(target, Target::Node { .. })
}

fn has_inspectable(structs: &[AuxStruct]) -> bool
    ensures test { result ≡ list_any (λ s. s.inspectable) structs.now }
{
    structs.iter().any(|class| class.inspectable)
}

// With `inspect`, where an inspectable class uses it.
fn with_inspect<N: Names>(
    scope: N,
    settings: &Settings,
    aux: &WasmBindgenAux,
) -> Result<N, AllocError>
    ensures bound { IfOk result (λ more. N.bound more ≡ with_texts (N.bound scope) (names.inspect_names settings.now aux.now)) }
{
    if settings.omit_imports
        && is_node(&settings.target)
        && has_inspectable(aux.structs.as_slice())
    {
        with_name(scope, "inspect")
    } else {
        Ok(scope)
    }
}

/// With the names of the outside. Want of memory is the only error.
pub fn with_hosts<N: Names>(
    alloc: Global,
    scope: N,
    settings: &Settings,
    aux: &WasmBindgenAux,
) -> Result<N, AllocError>
    ensures bound { IfOk result (λ more. N.bound more ≡ with_texts (N.bound scope) (names.host_names settings.now aux.now)) }
{
    let omitted = settings.omit_imports;
    let common = with_names(scope, &HOSTS)?;
    let own = with_target_hosts(common, &settings.target)?;
    let imported = with_imports(alloc, own, omitted, aux.imports.as_slice())?;
    let described = with_reexports(alloc, imported, omitted, aux.reexports.as_slice())?;
    with_inspect(described, settings, aux)
}

// With a name that has a number after it.
fn with_number<N: Names>(alloc: Global, scope: N, stem: &str, number: u64) -> Result<N, AllocError>
    ensures bound { IfOk result (λ more. N.bound more ≡ set.insert (N.bound scope) (stem.now ++ decimal number)) }
{
    let name = format!(in alloc; "{stem}{number}")?;
    with_name(scope, name.as_str())
}

// With each of these with a number after it.
fn with_stems<N: Names>(
    alloc: Global,
    scope: N,
    stems: &[&str],
    number: u64,
) -> Result<N, AllocError>
    ensures bound { IfOk result (λ more. N.bound more ≡ with_texts (N.bound scope) (spec.numbered_by (map (λ w. w.now) stems.now) number)) }
{
    let mut more = scope;
    for stem in stems {
        more = with_number(alloc, more, stem, number)?;
    }
    Ok(more)
}

// With each of these with a number after it, where there is an entry.
fn with_entry<N: Names, T>(
    alloc: Global,
    scope: N,
    stems: &[&str],
    number: u64,
    entry: &Option<T>,
) -> Result<N, AllocError>
    ensures bound { IfOk result (λ more. N.bound more ≡ with_texts (N.bound scope) (spec.entry_names (map (λ w. w.now) stems.now) number entry.now)) }
{
    match entry {
        None => Ok(scope),
        Some(_) => with_stems(alloc, scope, stems, number),
    }
}

// With each of these with the place of each entry after it.
fn with_placed<N: Names, T>(
    alloc: Global,
    scope: N,
    stems: &[&str],
    entries: &[Option<T>],
) -> Result<N, AllocError>
    ensures bound { IfOk result (λ more. N.bound more ≡ with_texts (N.bound scope) (names.placed_names (map (λ w. w.now) stems.now) 0 entries.now)) }
{
    let mut more = scope;
    let mut place = 0;
    for entry in entries {
        more = with_entry(alloc, more, stems, place, entry)?;
        place += 1;
    }
    Ok(more)
}

// With `import` with each number up to this one after it.
#[tactic(auto, using(crate::proofs::TakenNames::imports_step))]
fn with_import_names<N: Names>(alloc: Global, scope: N, last: u64) -> Result<N, AllocError>
    ensures bound { IfOk result (λ more. N.bound more ≡ with_texts (N.bound scope) (names.import_names last)) }
{
    let mut more = scope;
    let mut number = last;
    while number > 0 {
        more = with_number(alloc, more, "import", number)?;
        number -= 1;
    }
    with_number(alloc, more, "import", 0)
}

// With the global of a script.
fn with_global<N: Names>(scope: N, target: &Target) -> Result<N, AllocError>
    ensures bound { IfOk result (λ more. N.bound more ≡ with_texts (N.bound scope) (names.global_names target.now)) }
{
    match target {
        Target::NoModules { global } => with_name(scope, global.as_str()),
        Target::Bundler { .. }
        | Target::Web
        | Target::Node { .. }
        | Target::Deno
        | Target::Module
        | Target::Emscripten => Ok(scope),
    }
}

// With the names that helpers bind.
#[tactic(auto, using(crate::proofs::TakenNames::helpers_taken))]
fn with_helpers<N: Names>(alloc: Global, scope: N, module: &Module) -> Result<N, AllocError>
    ensures bound { IfOk result (λ more. N.bound more ≡ with_texts (N.bound scope) (names.helper_names «module».now)) }
{
    let listed = with_names(scope, &HELPER_NAMES)?;
    let memories = with_placed(alloc, listed, &MEMORY_NAMES, module.memories())?;
    with_placed(alloc, memories, &TABLE_NAMES, module.tables())
}

/// With the names that helpers and the texts of targets bind. Want of memory is the only error.
#[tactic(auto, using(crate::proofs::TakenNames::fixed_taken))]
pub fn with_fixed<N: Names>(
    alloc: Global,
    scope: N,
    settings: &Settings,
    module: &Module,
) -> Result<N, AllocError>
    ensures bound { IfOk result (λ more. N.bound more ≡ with_texts (N.bound scope) (names.fixed_names settings.now «module».now)) }
{
    let texts = with_names(scope, &TARGET_NAMES)?;
    let helpers = with_helpers(alloc, texts, module)?;
    let imports = with_import_names(alloc, helpers, live_count(module.imports()))?;
    with_global(imports, &settings.target)
}

/// The names that the glue file may not declare as they are. Want of memory is the only error.
pub fn taken_names<N: Names>(
    alloc: Global,
    settings: &Settings,
    lowered: &Lowered,
) -> Result<N, AllocError>
    ensures bound { IfOk result (λ taken. N.bound taken ≡ spec.taken_names settings.now lowered.now) }
{
    let none: N = Names::new(alloc);
    let hosts = with_hosts(alloc, none, settings, &lowered.aux)?;
    with_fixed(alloc, hosts, settings, &lowered.module)
}
