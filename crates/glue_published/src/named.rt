//! Names under which nothing can be published.
ghost use Rattle.std.specs.Prelude.{◌≡◌, find, option_map};
ghost use Rattle.std.specs.Option.{option_copied};
ghost use Rattle.glue_faults.specs.First as first;
ghost use Rattle.glue_published.specs.Named as spec;

use crate::things::stands_alone;
use glue_shared::{AuxEnum, AuxExport, AuxStruct, WasmBindgenAux};
use glue_words::is_valid_ident;
use values::Text;

/// Whether the name is `__proto__`, which no object has as a key of its own. There is no error.
pub fn is_proto_name(name: &str) -> bool
    ensures test { result ≡ spec.is_proto_name name.now }
{
    name == "__proto__"
}

// The first such of these names.
fn first_proto(names: &[Text]) -> Option<&Text>
    ensures first { option_copied result ≡ find spec.is_proto_name names.now }
{
    names.iter().find(|name| is_proto_name(name.as_str()))
}

// The first such segment of a path.
#[tactic(auto, using(crate::proofs::Names::found_behind))]
fn bad_path<'a>(namespace: &'a [Text], name: &'a Text) -> Option<&'a Text>
    ensures first { option_copied result ≡ spec.bad_path namespace.now name.now }
{
    let segment = first_proto(namespace);
    if segment.is_some() {
        return segment;
    }
    if is_proto_name(name.as_str()) {
        Some(name)
    } else {
        None
    }
}

// The first such segment of an export's path. A member of a class has none.
fn bad_export(export: &AuxExport) -> Option<&Text>
    ensures bad { option_copied result ≡ spec.bad_export export.now }
{
    if stands_alone(export.kind) {
        bad_path(export.namespace.as_slice(), &export.name)
    } else {
        None
    }
}

/// The first name of an export that can't stand where it is published: a segment of its path that is `__proto__`. There is no error.
pub fn bad_export_name(exports: &[AuxExport]) -> Option<&Text>
    ensures first { option_copied result ≡ spec.bad_export_name exports.now }
{
    for export in exports {
        let name = bad_export(export);
        if name.is_some() {
            return name;
        }
    }
    None
}

fn first_bad_class(classes: &[AuxStruct]) -> Option<&Text>
    ensures first { option_copied result ≡ first.first_of spec.bad_class classes.now }
{
    for class in classes {
        let name = bad_path(class.namespace.as_slice(), &class.name);
        if name.is_some() {
            return name;
        }
    }
    None
}

fn is_bad_variant(name: &str) -> bool
    ensures test { result ≡ spec.is_bad_variant name.now }
{
    is_proto_name(name) || !is_valid_ident(name)
}

// The first variant that is `__proto__` or no identifier.
fn bad_variant(variants: &[(Text, i64, Text)]) -> Option<&Text>
    ensures first { option_copied result ≡ option_map (λ v. v.0) (find (λ v. spec.is_bad_variant v.0) variants.now) }
{
    let variant = variants
        .iter()
        .find(|variant| is_bad_variant(variant.0.as_str()))?;
    Some(&variant.0)
}

fn bad_enum(one: &AuxEnum) -> Option<&Text>
    ensures bad { option_copied result ≡ spec.bad_enum one.now }
{
    let segment = bad_path(one.namespace.as_slice(), &one.name);
    if segment.is_some() {
        return segment;
    }
    bad_variant(one.variants.as_slice())
}

fn first_bad_enum(enums: &[AuxEnum]) -> Option<&Text>
    ensures first { option_copied result ≡ first.first_of spec.bad_enum enums.now }
{
    for one in enums {
        let name = bad_enum(one);
        if name.is_some() {
            return name;
        }
    }
    None
}

/// The first name that can't stand where it is published, of a class or an enum: a segment of its path that is `__proto__`, or a variant
/// of an enum that is `__proto__` or no identifier. Classes come first, then enums, each with its path before its variants. There is no
/// error.
pub fn bad_declared_name(aux: &WasmBindgenAux) -> Option<&Text>
    ensures first { option_copied result ≡ spec.bad_declared_name aux.now }
{
    let class = first_bad_class(aux.structs.as_slice());
    if class.is_some() {
        return class;
    }
    first_bad_enum(aux.enums.as_slice())
}
