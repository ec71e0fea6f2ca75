//! Whether a name is one of the outside, or one that a glue file may bind.
ghost use Rattle.std.specs.Prelude.{◌≡◌, ◌<◌, ◌^◌, ◌&&◌, ◌||◌, ◌++◌, is_some, map, option_map, bytes_eq, true, false};
ghost use Rattle.std.specs.Fmt.{decimal};
ghost use Rattle.std.specs.List.{list_any};
ghost use Rattle.glue_shared.specs.Names.{described_hosts, described_names, fixed_names, global_names, helper_names, host_names, import_names, is_one_of, js_import, live_count, names_of, placed_names, target_hosts, value_import};
ghost use Rattle.glue_shared.specs.Names as spec;

use crate::adapter::AdapterId;
use crate::aux::{AuxStruct, WasmBindgenAux};
use crate::import::{AuxImport, AuxValue, JsImport, JsImportName};
use crate::names::{
    EMSCRIPTEN_HOSTS, HELPER_NAMES, HOSTS, MEMORY_NAMES, TABLE_NAMES, TARGET_NAMES,
};
use crate::settings::{Settings, Target};
use values::Text;
use wasm_core::Module;

// Whether the name is one of these.
fn is_listed(name: &str, words: &[&str]) -> bool
    ensures { result ≡ list_any (λ word. bytes_eq word.now name.now) words.now }
{
    words.iter().any(|word| *word == name)
}

// Whether the name is the two texts, one after the other.
#[tactic(auto, using(crate::proofs::Texts::joined_bytes, crate::proofs::Texts::longer_front))]
fn is_joined(name: &[u8], front: &[u8], rest: &[u8]) -> bool
    ensures { result ≡ bytes_eq (front.now ++ rest.now) name.now }
{
    if name.len() < front.len() {
        return false;
    }
    let (head, tail) = name.split_at(front.len());
    front == head && rest == tail
}

// Whether the name is a text with one of these in front.
fn has_prefix(name: &str, prefixes: &[Text], text: &str) -> bool
    ensures { result ≡ list_any (λ prefix. bytes_eq (prefix ++ text.now) name.now) prefixes.now }
{
    prefixes.iter().any(|prefix| is_joined(
        name.as_bytes(),
        prefix.as_str().as_bytes(),
        text.as_bytes(),
    ))
}

// Whether a described name brings this name of the outside.
#[tactic(auto, using(crate::proofs::Sets::prefixed_any))]
fn is_host_of(name: &str, omitted: bool, described: &JsImportName) -> bool
    ensures { result ≡ is_one_of (described_hosts omitted described.now) name.now }
{
    match described {
        JsImportName::Global { name: global } => global.as_str() == name,
        JsImportName::Module { name: given, .. }
        | JsImportName::LocalModule { name: given, .. }
        | JsImportName::InlineJs { name: given, .. } => omitted && given.as_str() == name,
        JsImportName::VendorPrefixed {
            name: vendor,
            prefixes,
        } => vendor.as_str() == name || has_prefix(name, prefixes.as_slice(), vendor.as_str()),
    }
}

// The name that an import of a value begins with.
fn value_import(value: &AuxValue) -> &JsImport
    ensures { result.now ≡ spec.value_import value.now }
{
    match value {
        AuxValue::Bare(js) => js,
        AuxValue::Getter(js, _) => js,
        AuxValue::ClassGetter(js, _) => js,
        AuxValue::Setter(js, _) => js,
        AuxValue::ClassSetter(js, _) => js,
    }
}

/// The name that an import begins with, where it begins with one.
pub fn js_import(what: &AuxImport) -> Option<&JsImport>
    ensures { option_map (λ js. js.now) result ≡ spec.js_import what.now }
{
    match what {
        AuxImport::Value(value) => Some(value_import(value)),
        AuxImport::ValueWithThis(js, _) => Some(js),
        AuxImport::Instanceof(js) => Some(js),
        AuxImport::Static(js, _) => Some(js),
        AuxImport::StructuralClassGetter(js, _) => Some(js),
        AuxImport::StructuralClassSetter(js, _) => Some(js),
        AuxImport::IndexingGetterOfClass(js) => Some(js),
        AuxImport::IndexingSetterOfClass(js) => Some(js),
        AuxImport::IndexingDeleterOfClass(js) => Some(js),
        AuxImport::String(_) => None,
        AuxImport::Cast(_) => None,
        AuxImport::StructuralMethod(_) => None,
        AuxImport::StructuralGetter(_) => None,
        AuxImport::StructuralSetter(_) => None,
        AuxImport::IndexingGetterOfObject => None,
        AuxImport::IndexingSetterOfObject => None,
        AuxImport::IndexingDeleterOfObject => None,
        AuxImport::WrapInExportedClass(_) => None,
        AuxImport::UnwrapExportedClass(_) => None,
        AuxImport::LinkTo(_, _) => None,
        AuxImport::Intrinsic(_) => None,
    }
}

// Whether what an import evaluates brings this name of the outside.
fn is_host_of_import(name: &str, omitted: bool, what: &AuxImport) -> bool
    ensures { result ≡ list_any (λ d. is_one_of (described_hosts omitted d) name.now) (names_of (spec.js_import what.now)) }
{
    match js_import(what) {
        Some(js) => is_host_of(name, omitted, &js.name),
        None => false,
    }
}

// Whether an import brings this name of the outside.
fn has_host_import(name: &str, omitted: bool, imports: &[(AdapterId, AuxImport)]) -> bool
    ensures { result ≡ list_any (λ i. list_any (λ d. is_one_of (described_hosts omitted d) name.now) (names_of (spec.js_import i.1))) imports.now }
{
    imports
        .iter()
        .any(|import| is_host_of_import(name, omitted, &import.1))
}

// Whether a re-export brings this name of the outside.
fn has_host_reexport(name: &str, omitted: bool, reexports: &[(Text, JsImport, bool)]) -> bool
    ensures { result ≡ list_any (λ r. is_one_of (described_hosts omitted r.1.name) name.now) reexports.now }
{
    reexports
        .iter()
        .any(|reexport| is_host_of(name, omitted, &reexport.1.name))
}

// Whether an import or a re-export brings this name of the outside.
fn is_described_host(name: &str, omitted: bool, aux: &WasmBindgenAux) -> bool
    ensures { result ≡ list_any (λ d. is_one_of (described_hosts omitted d) name.now) (described_names aux.now) }
{
    has_host_import(name, omitted, aux.imports.as_slice())
        || has_host_reexport(name, omitted, aux.reexports.as_slice())
}

fn is_node(target: &Target) -> bool
    ensures { result ≡ spec.is_node target.now }
{
    match target {
        Target::Node { .. } => true,
        Target::Bundler { .. }
        | Target::Web
        | Target::NoModules { .. }
        | Target::Deno
        | Target::Module
        | Target::Emscripten => false,
    }
}

fn has_inspectable(structs: &[AuxStruct]) -> bool
    ensures { result ≡ list_any (λ s. s.inspectable) structs.now }
{
    structs.iter().any(|class| class.inspectable)
}

fn is_inspect(name: &str, settings: &Settings, aux: &WasmBindgenAux) -> bool
    ensures { result ≡ is_one_of (spec.inspect_names settings.now aux.now) name.now }
{
    name == "inspect"
        && settings.omit_imports
        && is_node(&settings.target)
        && has_inspectable(aux.structs.as_slice())
}

#[tactic(auto, using(crate::proofs::Sets::texts_any))]
fn is_target_host(name: &str, target: &Target) -> bool
    ensures { result ≡ is_one_of (target_hosts target.now) name.now }
{
    match target {
        Target::Emscripten => is_listed(name, &EMSCRIPTEN_HOSTS),
        Target::Bundler { .. }
        | Target::Web
        | Target::NoModules { .. }
        | Target::Node { .. }
        | Target::Deno
        | Target::Module => false,
    }
}

/// Whether the name is one of the outside: of each target, of this target, or of the description.
pub fn is_host_name(name: &str, settings: &Settings, aux: &WasmBindgenAux) -> bool
    ensures { result ≡ is_one_of (host_names settings.now aux.now) name.now }
{
    is_listed(name, &HOSTS)
        || is_target_host(name, &settings.target)
        || is_described_host(name, settings.omit_imports, aux)
        || is_inspect(name, settings, aux)
}

// Whether the bytes are the number in decimal.
#[tactic(auto, using(crate::proofs::Texts::one_digit, crate::proofs::Texts::more_digits, crate::proofs::Texts::no_digits))]
fn is_decimal(bytes: &[u8], number: u64) -> bool
    ensures { result ≡ bytes_eq (decimal number) bytes.now }
{
    match bytes.split_last() {
        Some((last, front)) => {
            if number < 10 {
                front.is_empty() && b'0' + number as u8 == *last
            } else {
                b'0' + (number % 10) as u8 == *last && is_decimal(front, number / 10)
            }
        }
        None => false,
    }
}

// Whether the name is a text with a number after it.
#[tactic(auto, using(crate::proofs::Texts::joined_bytes, crate::proofs::Texts::longer_front))]
fn is_numbered(name: &str, stem: &str, number: u64) -> bool
    ensures { result ≡ bytes_eq (stem.now ++ decimal number) name.now }
{
    let name = name.as_bytes();
    if name.len() < stem.len() {
        return false;
    }
    let (head, tail) = name.split_at(stem.len());
    stem.as_bytes() == head && is_decimal(tail, number)
}

// Whether the name is one of these with a number after it.
fn is_any_numbered(name: &str, stems: &[&str], number: u64) -> bool
    ensures { result ≡ list_any (λ stem. bytes_eq (stem.now ++ decimal number) name.now) stems.now }
{
    stems.iter().any(|stem| is_numbered(name, stem, number))
}

// Whether there is an entry, and the name is one of these with its place after it.
fn is_named_by<T>(name: &str, stems: &[&str], place: u64, entry: &Option<T>) -> bool
    ensures { result ≡ (is_some entry.now && list_any (λ stem. bytes_eq (stem.now ++ decimal place) name.now) stems.now) }
{
    entry.is_some() && is_any_numbered(name, stems, place)
}

// Whether the name is one of these with the place of an entry after it.
fn is_placed<T>(name: &str, stems: &[&str], entries: &[Option<T>]) -> bool
    ensures { result ≡ is_one_of (placed_names (map (λ w. w.now) stems.now) 0 entries.now) name.now }
{
    let mut place = 0;
    for entry in entries {
        if is_named_by(name, stems, place, entry) {
            return true;
        }
        place += 1;
    }
    false
}

/// How many entries there are.
pub fn live_count<T>(entries: &[Option<T>]) -> u64
    ensures { result ≡ spec.live_count entries.now }
{
    let mut count = 0;
    for entry in entries {
        count += u64::from(entry.is_some());
    }
    count
}

// Whether the name is `import` with a number up to this one after it.
fn is_import_name(name: &str, last: u64) -> bool
    ensures { result ≡ is_one_of (import_names last) name.now }
{
    let mut number = last;
    while number > 0 {
        if is_numbered(name, "import", number) {
            return true;
        }
        number -= 1;
    }
    is_numbered(name, "import", 0)
}

fn is_global(name: &str, target: &Target) -> bool
    ensures { result ≡ is_one_of (global_names target.now) name.now }
{
    match target {
        Target::NoModules { global } => global.as_str() == name,
        Target::Bundler { .. }
        | Target::Web
        | Target::Node { .. }
        | Target::Deno
        | Target::Module
        | Target::Emscripten => false,
    }
}

// Whether helpers may bind the name.
fn is_helper_name(name: &str, module: &Module) -> bool
    ensures { result ≡ is_one_of (helper_names «module».now) name.now }
{
    is_listed(name, &HELPER_NAMES)
        || is_placed(name, &MEMORY_NAMES, module.memories())
        || is_placed(name, &TABLE_NAMES, module.tables())
}

/// Whether helpers or the texts of a target may bind the name.
pub fn is_fixed_name(name: &str, settings: &Settings, module: &Module) -> bool
    ensures { result ≡ is_one_of (fixed_names settings.now «module».now) name.now }
{
    is_listed(name, &TARGET_NAMES)
        || is_helper_name(name, module)
        || is_import_name(name, live_count(module.imports()))
        || is_global(name, &settings.target)
}
