//! The names of the outside that described names bring, as a list.
ghost use Rattle.std.specs.Prelude.{◌≡◌, ◌++◌, IfOk, OnOk, map};
ghost use Rattle.std.specs.Option.{option_copied};
ghost use Rattle.glue_shared.specs.Names as names;
ghost use Rattle.glue_names.specs.Taken as spec;

use crate::omitted::push_where;
use glue_shared::JsImportName;
use std::alloc::{AllocError, Global};
use values::{Duplicate, Seq, Text};

/// A copy of the text, where there is one. Want of memory is the only error.
pub fn copied(alloc: Global, text: Option<&Text>) -> Result<Option<Text>, AllocError>
    ensures same { IfOk result (λ copy. copy ≡ option_copied text.entry) }
{
    match text {
        None => Ok(None),
        Some(text) => Ok(Some(text.copy(alloc)?)),
    }
}

// Two texts, one behind the other.
fn joined(alloc: Global, front: &Text, rest: &Text) -> Result<Text, AllocError>
    ensures joined { IfOk result (λ joined. joined ≡ front.now ++ rest.now) }
{
    let mut joined = front.copy(alloc)?;
    joined.push_str(rest.as_str())?;
    Ok(joined)
}

// Adds the name behind each of these prefixes.
fn push_prefixed(
    alloc: Global,
    prefixes: &[Text],
    name: &Text,
    names: &mut Seq<Text>,
) -> Result<(), AllocError>
    ensures pushed { OnOk result (names.new ≡ names.old ++ map (λ prefix. prefix ++ name.now) prefixes.now) }
{
    for prefix in prefixes {
        names.push(joined(alloc, prefix, name)?)?;
    }
    Ok(())
}

/// The names of the outside that a described name brings, where imports are left out or kept. Want of memory is the only error.
pub fn described_hosts(
    alloc: Global,
    omitted: bool,
    described: &JsImportName,
) -> Result<Seq<Text>, AllocError>
    ensures hosts { IfOk result (λ hosts. hosts ≡ names.described_hosts omitted described.now) }
{
    let mut hosts = Seq::new(alloc);
    match described {
        JsImportName::Global { name } => hosts.push(name.copy(alloc)?)?,
        JsImportName::VendorPrefixed { name, prefixes } => {
            hosts.push(name.copy(alloc)?)?;
            push_prefixed(alloc, prefixes.as_slice(), name, &mut hosts)?;
        }
        JsImportName::Module { name, .. }
        | JsImportName::LocalModule { name, .. }
        | JsImportName::InlineJs { name, .. } => push_where(alloc, omitted, name, &mut hosts)?,
    }
    Ok(hosts)
}

/// The name of a global, where a described name is one. There is no error.
pub fn global_of(name: &JsImportName) -> Option<&Text>
    ensures global { option_copied result ≡ spec.global_of name.now }
{
    match name {
        JsImportName::Global { name } => Some(name),
        _ => None,
    }
}
