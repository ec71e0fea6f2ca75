//! Names that can't stand where they would have to, and things of one name.
ghost use Rattle.std.specs.Prelude.{◌≡◌, ◌∷◌, [], IfOk, bytes_eq, find, not, option_map};
ghost use Rattle.std.specs.List.{list_any};
ghost use Rattle.glue_faults.specs.Clash.{first_clash_after};
ghost use Rattle.glue_faults.specs.declared.fault.Fault.TheVariants as faults;
ghost use Rattle.std.specs.Option.{option_copied};
ghost use Rattle.std.specs.FinSet as set;
ghost use Rattle.values.specs.TextSet.{with_texts};
ghost use Rattle.glue_faults.specs.First as first;
ghost use Rattle.glue_words.specs.Ident.{is_ident};
ghost use Rattle.glue_published.specs.Named.{is_proto_name};
ghost use Rattle.glue_shared.specs.Names as names;
ghost use Rattle.glue_shared.specs.Names.{fixed_names, names_of};
ghost use Rattle.glue_names.specs.Given as given_spec;
ghost use Rattle.glue_names.specs.Given.{other_names};
ghost use Rattle.glue_names.specs.Naming as spec;
ghost use Rattle.glue_names.specs.Taken.{global_of, name_if, taken_in};

use crate::brought::{copied, described_hosts, global_of};
use crate::clash::{Claim, first_clash, first_met};
use crate::given::{given_names, kept, values_name};
use crate::omitted::{begun, push_reexported};
use crate::taken::{taken_names, with_each, with_fixed};
use glue_faults::Fault;
use glue_published::{bad_declared_name, bad_export_name, is_proto_name};
use glue_scope::{IdentScope, Names};
use glue_shared::{
    AdapterId, AuxImport, AuxStringEnum, JsImport, JsImportName, Lowered, Settings, WasmBindgenAux,
    js_import,
};
use glue_words::is_valid_ident;
use printed_adapters::{SHIM, own_names, uses_shim};
use std::alloc::{AllocError, Global};
use values::{Duplicate, Seq, Text};
use wasm_core::{Export, ExportId, Module};

/// The name of the export that a start function becomes.
pub const START: &str = "__wbindgen_start";

/// The name, where a test holds.
pub fn where_true(test: bool, name: &Text) -> Option<&Text>
    ensures chosen { option_copied result ≡ first.where_true test name.now }
{
    if test { Some(name) } else { None }
}

// The first of the texts that an object can't hold as a name.
fn first_proto(texts: &[Text]) -> Option<&Text>
    ensures first { option_copied result ≡ find is_proto_name texts.now }
{
    texts.iter().find(|text| is_proto_name(text.as_str()))
}

// The first of these names that is no identifier.
fn first_not_ident(names: &[Text]) -> Option<&Text>
    ensures first { option_copied result ≡ find (λ name. not (is_ident name)) names.now }
{
    names.iter().find(|name| !is_valid_ident(name.as_str()))
}

// The name, where it is no identifier.
fn not_ident(name: &Text) -> Option<&Text>
    ensures bad { option_copied result ≡ find (λ name. not (is_ident name)) (name.now ∷ []) }
{
    if is_valid_ident(name.as_str()) {
        None
    } else {
        Some(name)
    }
}

// The name of the export after which the function of a closure's adapter is named, where it is no identifier.
fn bad_closure<'a>(module: &'a Module, pair: &(ExportId, AdapterId)) -> Option<&'a Text>
    ensures bad { option_copied result ≡ spec.bad_closure «module».now pair.now }
{
    match module.exports().get(pair.0.0 as usize) {
        Some(Some(export)) => not_ident(&export.name),
        Some(None) | None => None,
    }
}

// The first such of these.
fn first_bad_closure<'a>(module: &'a Module, pairs: &[(ExportId, AdapterId)]) -> Option<&'a Text>
    ensures first { option_copied result ≡ first.first_of (spec.bad_closure «module».now) pairs.now }
{
    for pair in pairs {
        let name = bad_closure(module, pair);
        if name.is_some() {
            return name;
        }
    }
    None
}

// The first name of the outside that a described name brings and that is no identifier.
fn bad_described(
    alloc: Global,
    omitted: bool,
    described: &JsImportName,
) -> Result<Option<Text>, AllocError>
    ensures bad { IfOk result (λ bad. bad ≡ spec.bad_described omitted described.now) }
{
    let hosts = described_hosts(alloc, omitted, described)?;
    copied(alloc, first_not_ident(hosts.as_slice()))
}

// The first such name of what an import begins with.
fn bad_import(alloc: Global, omitted: bool, what: &AuxImport) -> Result<Option<Text>, AllocError>
    ensures bad { IfOk result (λ bad. bad ≡ first.first_of (spec.bad_described omitted) (names_of (names.js_import what.now))) }
{
    match js_import(what) {
        None => Ok(None),
        Some(js) => bad_described(alloc, omitted, &js.name),
    }
}

// The first such of these imports.
fn first_bad_import(
    alloc: Global,
    omitted: bool,
    entries: &[(AdapterId, AuxImport)],
) -> Result<Option<Text>, AllocError>
    ensures first { IfOk result (λ found. found ≡ first.first_of (spec.bad_import omitted) entries.now) }
{
    for entry in entries {
        let name = bad_import(alloc, omitted, &entry.1)?;
        if name.is_some() {
            return Ok(name);
        }
    }
    Ok(None)
}

// The name of a string enum's values, where it is no identifier.
#[tactic(auto, unfolding(crate::specs::Naming::bad_values))]
fn bad_values(alloc: Global, texts: &AuxStringEnum) -> Result<Option<Text>, AllocError>
    ensures bad { IfOk result (λ bad. bad ≡ spec.bad_values texts.now) }
{
    let name = values_name(alloc, texts)?;
    if is_valid_ident(name.as_str()) {
        Ok(None)
    } else {
        Ok(Some(name))
    }
}

// The first such of these.
fn first_bad_values(alloc: Global, enums: &[AuxStringEnum]) -> Result<Option<Text>, AllocError>
    ensures first { IfOk result (λ found. found ≡ first.first_of spec.bad_values enums.now) }
{
    for texts in enums {
        let name = bad_values(alloc, texts)?;
        if name.is_some() {
            return Ok(name);
        }
    }
    Ok(None)
}

// The name of a re-export that no object can hold, or the first name of the outside that its import brings and that is no identifier.
fn bad_reexported(
    alloc: Global,
    omitted: bool,
    entry: &(Text, JsImport, bool),
) -> Result<Option<Text>, AllocError>
    ensures bad { IfOk result (λ bad. bad ≡ spec.bad_reexported omitted entry.now) }
{
    if is_proto_name(entry.0.as_str()) {
        return Ok(Some(entry.0.copy(alloc)?));
    }
    bad_described(alloc, omitted, &entry.1.name)
}

// The first such of these re-exports.
fn first_bad_reexported(
    alloc: Global,
    omitted: bool,
    entries: &[(Text, JsImport, bool)],
) -> Result<Option<Text>, AllocError>
    ensures first { IfOk result (λ found. found ≡ first.first_of (spec.bad_reexported omitted) entries.now) }
{
    for entry in entries {
        let name = bad_reexported(alloc, omitted, entry)?;
        if name.is_some() {
            return Ok(name);
        }
    }
    Ok(None)
}

// The first bad name, in the description's order.
#[tactic(auto, unfolding(crate::specs::Naming::bad_text))]
fn bad_text(
    alloc: Global,
    omitted: bool,
    own: &[Text],
    lowered: &Lowered,
) -> Result<Option<Text>, AllocError>
    ensures bad { IfOk result (λ bad. bad ≡ spec.bad_text omitted own.now lowered.now) }
{
    let aux = &lowered.aux;
    let called = first_bad_closure(&lowered.module, lowered.wit.exports.as_slice());
    if called.is_some() {
        return copied(alloc, called);
    }
    let exported = bad_export_name(aux.exports.as_slice());
    if exported.is_some() {
        return copied(alloc, exported);
    }
    let imported = first_bad_import(alloc, omitted, aux.imports.as_slice())?;
    if imported.is_some() {
        return Ok(imported);
    }
    let declared = bad_declared_name(aux);
    if declared.is_some() {
        return copied(alloc, declared);
    }
    let values = first_bad_values(alloc, aux.string_enums.as_slice())?;
    if values.is_some() {
        return Ok(values);
    }
    let reexported = first_bad_reexported(alloc, omitted, aux.reexports.as_slice())?;
    if reexported.is_some() {
        return Ok(reexported);
    }
    copied(alloc, first_proto(own))
}

/// The first name that can't stand where it would have to: the name of an export after which the function of a closure is named, and that is no
/// identifier; a segment or name of an export, a class or an enum that is `__proto__`; a variant of an enum that is `__proto__` or no identifier;
/// the name of a string enum's values that is no identifier; a described global, a vendor's name with or without one of its prefixes, or where
/// imports are left out a name from a module, that is no identifier; a re-export or an import that the glue file defines of the name
/// `__proto__`. They come in the order of the description, and the module's imports last. Want of memory is the only error.
pub fn bad_name(
    alloc: Global,
    settings: &Settings,
    lowered: &Lowered,
) -> Result<Option<Fault>, AllocError>
    ensures fault { IfOk result (λ fault. fault ≡ spec.bad_name settings.now lowered.now) }
{
    let own = own_names(alloc, settings, lowered)?;
    match bad_text(alloc, settings.omit_imports, own.as_slice(), lowered)? {
        None => Ok(None),
        Some(name) => Ok(Some(Fault::BadName { name })),
    }
}

// The first of these names that the glue file may bind.
fn first_bound<'a, N: Names>(taken: &N, names: &'a [Text]) -> Option<&'a Text>
    ensures first { option_copied result ≡ find (set.contains (N.bound taken.now)) names.now }
{
    names.iter().find(|name| taken.is_bound(name.as_str()))
}

// The global that a described name is, where that is given to something else.
fn given_global<'a, N: Names>(given: &N, described: &'a JsImportName) -> Option<&'a Text>
    ensures name { option_copied result ≡ name_if (set.contains (N.bound given.now)) (global_of described.now) }
{
    let name = global_of(described)?;
    where_true(given.is_bound(name.as_str()), name)
}

// The first name of the outside that a described name brings and that the glue file may bind, or the global, where that is given to something
// else.
fn taken_described<N: Names>(
    alloc: Global,
    taken: &N,
    given: &N,
    described: &JsImportName,
) -> Result<Option<Text>, AllocError>
    ensures name { IfOk result (λ name. name ≡ taken_in (N.bound taken.now) (N.bound given.now) described.now) }
{
    let names = described_hosts(alloc, false, described)?;
    let found = first_bound(taken, names.as_slice());
    if found.is_some() {
        return copied(alloc, found);
    }
    copied(alloc, given_global(given, described))
}

// The first such of these.
fn first_taken<N: Names>(
    alloc: Global,
    taken: &N,
    given: &N,
    described: &[JsImportName],
) -> Result<Option<Text>, AllocError>
    ensures name { IfOk result (λ found. found ≡ first.first_of (taken_in (N.bound taken.now) (N.bound given.now)) described.now) }
{
    for name in described {
        let found = taken_described(alloc, taken, given, name)?;
        if found.is_some() {
            return Ok(found);
        }
    }
    Ok(None)
}

// The names that the glue file may bind itself.
fn fixed_scope<N: Names>(
    alloc: Global,
    settings: &Settings,
    module: &Module,
) -> Result<N, AllocError>
    ensures bound { IfOk result (λ taken. N.bound taken ≡ with_texts set.empty (fixed_names settings.now «module».now)) }
{
    let none: N = Names::new(alloc);
    with_fixed(alloc, none, settings, module)
}

// The given names.
fn given_scope<N: Names>(
    alloc: Global,
    settings: &Settings,
    lowered: &Lowered,
) -> Result<N, AllocError>
    ensures bound { IfOk result (λ given. N.bound given ≡ with_texts set.empty (given_spec.given_names settings.now.omit_imports lowered.now)) }
{
    let names = given_names(alloc, settings.omit_imports, lowered)?;
    let none: N = Names::new(alloc);
    with_each(none, names.as_slice())
}

// The names that imports and re-exports begin with.
fn described_names(alloc: Global, aux: &WasmBindgenAux) -> Result<Seq<JsImportName>, AllocError>
    ensures names { IfOk result (λ described. described ≡ names.described_names aux.now) }
{
    let mut described = begun(alloc, aux.imports.as_slice())?;
    push_reexported(alloc, aux.reexports.as_slice(), &mut described)?;
    Ok(described)
}

/// The first name of the outside, a described global or a vendor's name with or without one of its prefixes, that the glue file may bind itself,
/// or that is a global and a given name of another kind too: of an export after which the function of a closure is named, of the values of a string
/// enum, or where imports are left out from a module. Those of imports come before those of re-exports. Want of memory is the only error.
#[tactic(auto, using(crate::proofs::TakenNames::taken_same))]
pub fn global_twice(
    alloc: Global,
    settings: &Settings,
    lowered: &Lowered,
) -> Result<Option<Fault>, AllocError>
    ensures fault { IfOk result (λ fault. fault ≡ spec.global_twice settings.now lowered.now) }
{
    let taken: IdentScope = fixed_scope(alloc, settings, &lowered.module)?;
    let given: IdentScope = given_scope(alloc, settings, lowered)?;
    let described = described_names(alloc, &lowered.aux)?;
    match first_taken(alloc, &taken, &given, described.as_slice())? {
        None => Ok(None),
        Some(name) => Ok(Some(Fault::GlobalTwice { name })),
    }
}

impl Claim for Text {
    ghost asks = { spec.one_word };

    ghost tells = { spec.one_word };

    fn is_met<N: Names>(&self, _alloc: Global, told: &N) -> Result<bool, AllocError> {
        Ok(told.is_bound(self.as_str()))
    }

    fn tell<N: Names>(&self, _alloc: Global, told: &mut N) -> Result<(), AllocError> {
        told.reserve(self.as_str())?;
        Ok(())
    }
}

impl Claim for Option<Export> {
    ghost asks = { spec.export_words };

    ghost tells = { spec.export_words };

    fn is_met<N: Names>(&self, _alloc: Global, told: &N) -> Result<bool, AllocError> {
        match self {
            None => Ok(false),
            Some(export) => Ok(told.is_bound(export.name.as_str())),
        }
    }

    fn tell<N: Names>(&self, _alloc: Global, told: &mut N) -> Result<(), AllocError> {
        match self {
            None => Ok(()),
            Some(export) => {
                told.reserve(export.name.as_str())?;
                Ok(())
            }
        }
    }
}

fn name_of(alloc: Global, export: &Option<Export>) -> Result<Text, AllocError>
    ensures name { IfOk result (λ name. name ≡ spec.name_of export.now) }
{
    match export {
        None => Text::from_str(alloc, ""),
        Some(export) => export.name.copy(alloc),
    }
}

// The names that no given one may be.
#[tactic(auto, using(crate::proofs::GivenNames::taken_are))]
fn other_scope<N: Names>(
    alloc: Global,
    settings: &Settings,
    lowered: &Lowered,
) -> Result<N, AllocError>
    ensures bound { IfOk result (λ taken. N.bound taken ≡ with_texts set.empty (other_names settings.now lowered.now)) }
{
    let kept = kept(alloc, settings)?;
    taken_names(alloc, &kept, lowered)
}

// The first of these given names that is of the outside for another reason, that the glue file may bind, or that an earlier one is.
#[tactic(auto, using(crate::proofs::GivenNames::first_given))]
fn first_given(
    alloc: Global,
    settings: &Settings,
    lowered: &Lowered,
    names: &[Text],
) -> Result<Option<Fault>, AllocError>
    ensures fault { IfOk result (λ fault. fault ≡ option_map faults.NameClash (first_clash_after bytes_eq (other_names settings.now lowered.now) names.now)) }
{
    let taken: IdentScope = other_scope(alloc, settings, lowered)?;
    match first_met(alloc, taken, names)? {
        None => Ok(None),
        Some(name) => Ok(Some(Fault::NameClash {
            name: name.copy(alloc)?,
        })),
    }
}

// The same of all, without a look at other names where there is none.
fn given_clash(
    alloc: Global,
    settings: &Settings,
    lowered: &Lowered,
) -> Result<Option<Fault>, AllocError>
    ensures fault { IfOk result (λ fault. fault ≡ spec.given_clash settings.now lowered.now) }
{
    let names = given_names(alloc, settings.omit_imports, lowered)?;
    if names.is_empty() {
        return Ok(None);
    }
    first_given(alloc, settings, lowered, names.as_slice())
}

// The first of these names that an earlier one is.
#[tactic(auto, using(crate::proofs::SameNames::first_same_name))]
fn import_clash(alloc: Global, own: &[Text]) -> Result<Option<Fault>, AllocError>
    ensures fault { IfOk result (λ fault. fault ≡ spec.import_clash own.now) }
{
    match first_clash(alloc, own)? {
        None => Ok(None),
        Some(name) => Ok(Some(Fault::NameClash {
            name: name.copy(alloc)?,
        })),
    }
}

// The first export whose name an earlier one has.
#[tactic(auto, using(crate::proofs::SameNames::first_same_export))]
fn wasm_clash(alloc: Global, exports: &[Option<Export>]) -> Result<Option<Fault>, AllocError>
    ensures fault { IfOk result (λ fault. fault ≡ spec.wasm_clash exports.now) }
{
    match first_clash(alloc, exports)? {
        None => Ok(None),
        Some(export) => Ok(Some(Fault::NameClash {
            name: name_of(alloc, export)?,
        })),
    }
}

// Whether an export has this name.
fn is_called(name: &str, export: &Option<Export>) -> bool
    ensures test { result ≡ spec.is_called name.now export.now }
{
    match export {
        None => false,
        Some(export) => export.name.as_str() == name,
    }
}

// Whether one of these has it.
fn has_called(name: &str, exports: &[Option<Export>]) -> bool
    ensures test { result ≡ list_any (spec.is_called name.now) exports.now }
{
    exports.iter().any(|export| is_called(name, export))
}

// That this name is met twice, where it is asked for.
fn name_fault(alloc: Global, name: &str, asked: bool) -> Result<Option<Fault>, AllocError>
    ensures fault { IfOk result (λ fault. fault ≡ first.where_true asked (faults.NameClash name.now)) }
{
    if !asked {
        return Ok(None);
    }
    Ok(Some(Fault::NameClash {
        name: Text::from_str(alloc, name)?,
    }))
}

// An export of the name under which one is added, where that is.
fn added_clash(
    alloc: Global,
    name: &str,
    is_added: bool,
    module: &Module,
) -> Result<Option<Fault>, AllocError>
    ensures fault { IfOk result (λ fault. fault ≡ spec.added_clash name.now is_added «module».now) }
{
    let asked = is_added && has_called(name, module.exports());
    name_fault(alloc, name, asked)
}

/// Whether the module has a start function, and it stands.
pub fn has_start(module: &Module) -> bool
    ensures test { result ≡ spec.has_start «module».now }
{
    match module.start() {
        Some(start) => matches!(module.funcs().get(start.0 as usize), Some(Some(_))),
        None => false,
    }
}

// An export of the name under which the function that moves the stack is exported, where an adapter that becomes a function asks for it.
fn shim_clash(
    alloc: Global,
    settings: &Settings,
    lowered: &Lowered,
) -> Result<Option<Fault>, AllocError>
    ensures fault { IfOk result (λ fault. fault ≡ spec.shim_clash settings.now lowered.now) }
{
    let is_added = uses_shim(alloc, settings, lowered)?;
    added_clash(alloc, SHIM, is_added, &lowered.module)
}

// An export of the name under which the start function is exported.
fn start_clash(alloc: Global, module: &Module) -> Result<Option<Fault>, AllocError>
    ensures fault { IfOk result (λ fault. fault ≡ spec.start_clash «module».now) }
{
    added_clash(alloc, START, has_start(module), module)
}

// The first name of two exports of the module, or of one and that of the function that moves the stack, or that of the start function.
fn export_clash(
    alloc: Global,
    settings: &Settings,
    lowered: &Lowered,
) -> Result<Option<Fault>, AllocError>
    ensures fault { IfOk result (λ fault. fault ≡ spec.export_clash settings.now lowered.now) }
{
    let exported = wasm_clash(alloc, lowered.module.exports())?;
    if exported.is_some() {
        return Ok(exported);
    }
    let moved = shim_clash(alloc, settings, lowered)?;
    if moved.is_some() {
        return Ok(moved);
    }
    start_clash(alloc, &lowered.module)
}

// The first name of two imports that the glue file defines, or of an export and another thing.
#[tactic(auto, unfolding(crate::specs::Naming::written_clash))]
fn written_clash(
    alloc: Global,
    settings: &Settings,
    lowered: &Lowered,
) -> Result<Option<Fault>, AllocError>
    ensures fault { IfOk result (λ fault. fault ≡ spec.written_clash settings.now lowered.now) }
{
    let own = own_names(alloc, settings, lowered)?;
    let imported = import_clash(alloc, own.as_slice())?;
    if imported.is_some() {
        return Ok(imported);
    }
    export_clash(alloc, settings, lowered)
}

/// The first given name that another has, that is of the outside for another reason, or that the glue file may bind, or else the first name that
/// two imports have that the glue file defines, that two exports of the module have, or an export and a function that is exported besides: first
/// the one that moves the stack of the module, where an adapter that becomes a function takes room on it, then the start function. Given names
/// are those of exports after which functions of closures are named, of each export and adapter once, those of the values of string enums, and where
/// imports are left out those from modules, of each import once. Want of memory is the only error.
#[tactic(auto, unfolding(crate::specs::Naming::name_clash))]
pub fn name_clash(
    alloc: Global,
    settings: &Settings,
    lowered: &Lowered,
) -> Result<Option<Fault>, AllocError>
    ensures fault { IfOk result (λ fault. fault ≡ spec.name_clash settings.now lowered.now) }
{
    let given = given_clash(alloc, settings, lowered)?;
    if given.is_some() {
        return Ok(given);
    }
    written_clash(alloc, settings, lowered)
}
