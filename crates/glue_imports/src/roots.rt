//! What the value that an import names begins with.
ghost use Rattle.std.specs.Prelude.{◌≡◌, ◌++◌, ◌∷◌, [], map, IfOk, OnOk};
ghost use Rattle.std.specs.Option.{option_copied};
ghost use Rattle.glue_imports.specs.declared.part.Part.TheVariants as p;
ghost use Rattle.glue_imports.specs.Roots as spec;

use crate::part::Part;
use glue_shared::{JsImport, JsImportName, NameMap};
use std::alloc::{AllocError, Global};
use values::{Duplicate, Seq, Text};

// The name that a described name has by itself.
fn plain_name(name: &JsImportName) -> &Text
    ensures name { result.now ≡ spec.plain_name name.now }
{
    match name {
        JsImportName::Global { name }
        | JsImportName::Module { name, .. }
        | JsImportName::LocalModule { name, .. }
        | JsImportName::InlineJs { name, .. }
        | JsImportName::VendorPrefixed { name, .. } => name,
    }
}

// The name that was drawn for what an import begins with, where one was.
fn drawn_name<'a>(names: &'a NameMap, name: &JsImportName) -> Option<&'a Text>
    ensures name { option_copied result ≡ spec.drawn_name names.now name.now }
{
    names.imports.get(name)
}

/// What a name stands for: the name that was drawn for it, and where none was, as for a global, the host's name.
pub fn root_name(alloc: Global, names: &NameMap, name: &JsImportName) -> Result<Part, AllocError>
    ensures part { IfOk result (λ part. part ≡ spec.root_name names.now name.now) }
{
    match drawn_name(names, name) {
        Some(drawn) => Ok(Part::Name(drawn.copy(alloc)?)),
        None => Ok(Part::Host(plain_name(name).copy(alloc)?, Seq::new(alloc))),
    }
}

// The properties that are read in turn, behind parts.
fn push_fields(alloc: Global, fields: &[Text], parts: &mut Seq<Part>) -> Result<(), AllocError>
    ensures parts { OnOk result (parts.new ≡ parts.old ++ map p.Property fields.now) }
{
    for field in fields {
        parts.push(Part::Property(field.copy(alloc)?))?;
    }
    Ok(())
}

// One part by itself.
fn one(alloc: Global, part: Part) -> Result<Seq<Part>, AllocError>
    ensures parts { IfOk result (λ parts. parts ≡ part ∷ []) }
{
    Ok(Seq::from_vec(vec![in alloc; part]?))
}

/// The value that an import names.
pub fn root(alloc: Global, names: &NameMap, js: &JsImport) -> Result<Seq<Part>, AllocError>
    ensures parts { IfOk result (λ parts. parts ≡ spec.root names.now js.now) }
{
    match drawn_name(names, &js.name) {
        Some(drawn) => {
            let mut parts = one(alloc, Part::Name(drawn.copy(alloc)?))?;
            push_fields(alloc, js.fields.as_slice(), &mut parts)?;
            Ok(parts)
        }
        None => {
            let name = plain_name(&js.name).copy(alloc)?;
            one(alloc, Part::Host(name, js.fields.copy(alloc)?))
        }
    }
}
