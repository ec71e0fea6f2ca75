//! The producers section: which tools made a module (WebAssembly tool conventions, producers section).

ghost use Rattle.std.specs.Prelude.{◌≡◌, IfOk, OnOk, OnErr};
ghost use Rattle.wasm_core.specs.Edits.{new_field, with_version, with_field, with_processed_by};

use crate::lookup::place_named;
use crate::module::Module;
use std::alloc::{AllocError, Global};
use values::{Seq, Text};
use wasm_file::{ProducerField, ProducerValue};

impl Module {
    /// Adds a tool to the field `processed-by` of the producers section, or gives the first entry of that name the
    /// version. Of several fields `processed-by` the first is changed; without one it is added last. Without memory
    /// nothing is changed.
    #[tactic(auto, unfolding(crate::specs::Edits::with_processed_by))]
    pub fn add_processed_by(
        &mut self,
        alloc: Global,
        name: &str,
        version: &str,
    ) -> Result<(), AllocError>
        ensures ok { OnOk result (self.new ≡ with_processed_by name.now version.now self.old) }
        ensures err { OnErr result (self.new ≡ self.old) }
    {
        set_field(alloc, &mut self.producers, "processed-by", name, version)
    }
}

/// A tool with its version.
fn new_value(alloc: Global, name: &str, version: &str) -> Result<ProducerValue, AllocError>
    ensures { IfOk result (λ v. v ≡ record { name = name.now; version = version.now }) }
{
    let name = Text::from_str(alloc, name)?;
    let version = Text::from_str(alloc, version)?;
    Ok(ProducerValue { name, version })
}

/// Copies.
fn copy_values(alloc: Global, values: &[ProducerValue]) -> Result<Vec<ProducerValue>, AllocError>
    ensures { IfOk result (λ v. v.items ≡ values.now) }
{
    let mut copies = Vec::new(alloc);
    for value in values {
        copies.push(new_value(alloc, value.name.as_str(), value.version.as_str())?)?;
    }
    Ok(copies)
}

/// Copies, of which the first of the name has the version; without one it is added last.
fn set_version(
    alloc: Global,
    values: &[ProducerValue],
    name: &str,
    version: &str,
) -> Result<Seq<ProducerValue>, AllocError>
    ensures { IfOk result (λ xs. xs ≡ with_version name.now version.now values.now) }
{
    let mut copies = copy_values(alloc, values)?;
    match place_named(values, name) {
        Some(place) => copies[place].version = Text::from_str(alloc, version)?,
        None => copies.push(new_value(alloc, name, version)?)?,
    }
    Ok(Seq::from_vec(copies))
}

/// The field with this entry alone.
fn new_field(
    alloc: Global,
    field: &str,
    name: &str,
    version: &str,
) -> Result<ProducerField, AllocError>
    ensures { IfOk result (λ f. f ≡ new_field field.now name.now version.now) }
{
    let mut values = Seq::new(alloc);
    values.push(new_value(alloc, name, version)?)?;
    Ok(ProducerField {
        name: Text::from_str(alloc, field)?,
        values,
    })
}

/// The first field of that name gets the entry; without one the field is added last. Without memory nothing is changed.
fn set_field(
    alloc: Global,
    fields: &mut Vec<ProducerField>,
    field: &str,
    name: &str,
    version: &str,
) -> Result<(), AllocError>
    ensures ok { OnOk result (fields.new.items ≡ with_field field.now name.now version.now fields.old.items) }
    ensures err { OnErr result (fields.new.items ≡ fields.old.items) }
{
    match place_named(fields, field) {
        Some(place) => {
            let found = &mut fields[place];
            found.values = set_version(alloc, found.values.as_slice(), name, version)?;
        }
        None => fields.push(new_field(alloc, field, name, version)?)?,
    }
    Ok(())
}
