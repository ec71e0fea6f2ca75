//! Names that are given, so that none is drawn for what has them.
ghost use Rattle.std.specs.Prelude.{◌≡◌, ◌++◌, IfOk, OnOk, map};
ghost use Rattle.glue_names.specs.Given as spec;
ghost use Rattle.glue_names.specs.Omitted.{begun, omitted_names, reexported};
ghost use Rattle.glue_names.specs.Once.{each_new, each_once};

use crate::closures::push_closure_names;
use crate::omitted::{begun, push_omitted_names, push_reexported};
use crate::once::{each_new, each_once};
use glue_shared::{AdapterId, AuxImport, AuxStringEnum, JsImport, Lowered, Settings};
use std::alloc::{AllocError, Global};
use values::{Duplicate, Seq, Text};

/// The name of the values of a string enum. Want of memory is the only error.
pub fn values_name(alloc: Global, texts: &AuxStringEnum) -> Result<Text, AllocError>
    ensures name { IfOk result (λ name. name ≡ spec.values_name texts.now) }
{
    let mut name = Text::from_str(alloc, "__wbindgen_enum_")?;
    name.push_str(texts.name.as_str())?;
    Ok(name)
}

// Adds those of these.
fn push_values(
    alloc: Global,
    enums: &[AuxStringEnum],
    list: &mut Seq<Text>,
) -> Result<(), AllocError>
    ensures pushed { OnOk result (list.new ≡ list.old ++ map spec.values_name enums.now) }
{
    for texts in enums {
        list.push(values_name(alloc, texts)?)?;
    }
    Ok(())
}

// Adds the names from modules that imports begin with, each once.
fn push_imported(
    alloc: Global,
    omitted: bool,
    imports: &[(AdapterId, AuxImport)],
    list: &mut Seq<Text>,
) -> Result<(), AllocError>
    ensures pushed { OnOk result (list.new ≡ list.old ++ omitted_names omitted (each_once (begun imports.now))) }
{
    if !omitted {
        return Ok(());
    }
    let begun = begun(alloc, imports)?;
    let once = each_once(alloc, begun.as_slice())?;
    push_omitted_names(alloc, omitted, once.as_slice(), list)
}

// Adds those from modules that the imports of re-exports begin with and other imports don't, each once.
fn push_new_reexported(
    alloc: Global,
    omitted: bool,
    imports: &[(AdapterId, AuxImport)],
    reexports: &[(Text, JsImport, bool)],
    list: &mut Seq<Text>,
) -> Result<(), AllocError>
    ensures pushed { OnOk result (list.new ≡ list.old ++ omitted_names omitted (each_new (begun imports.now) (reexported reexports.now))) }
{
    if !omitted {
        return Ok(());
    }
    let before = begun(alloc, imports)?;
    let mut reexported = Seq::new(alloc);
    push_reexported(alloc, reexports, &mut reexported)?;
    let new = each_new(alloc, before.as_slice(), reexported.as_slice())?;
    push_omitted_names(alloc, omitted, new.as_slice(), list)
}

/// The given names of a description. Want of memory is the only error.
pub fn given_names(alloc: Global, omitted: bool, lowered: &Lowered) -> Result<Seq<Text>, AllocError>
    ensures names { IfOk result (λ names. names ≡ spec.given_names omitted lowered.now) }
{
    let aux = &lowered.aux;
    let (imports, reexports) = (aux.imports.as_slice(), aux.reexports.as_slice());
    let mut names = Seq::new(alloc);
    push_closure_names(alloc, lowered, &mut names)?;
    push_imported(alloc, omitted, imports, &mut names)?;
    push_values(alloc, aux.string_enums.as_slice(), &mut names)?;
    push_new_reexported(alloc, omitted, imports, reexports, &mut names)?;
    Ok(names)
}

/// The same settings with imports kept. Want of memory is the only error.
pub fn kept(alloc: Global, settings: &Settings) -> Result<Settings, AllocError>
    ensures kept { IfOk result (λ kept. kept ≡ spec.kept settings.now) }
{
    let mut kept = settings.copy(alloc)?;
    kept.omit_imports = false;
    Ok(kept)
}
