//! Classes that adapters name, and those that aren't described.
ghost use Rattle.std.specs.Prelude.{◌≡◌, IfOk, map, not, ℕ};
ghost use Rattle.std.specs.Option.{option_copied};
ghost use Rattle.glue_shared.specs.declared.adapter.Adapter.{Adapter};
ghost use Rattle.glue_adapters.specs.Adapters.{code_of};
ghost use Rattle.glue_shared.specs.Names.{is_one_of};
ghost use Rattle.glue_faults.specs.First.{first_of, where_true};
ghost use Rattle.glue_check.specs.Classes as spec;

use glue_exports::qualified_name;
use glue_faults::Fault;
use glue_shared::{Adapter, AdapterKind, AdapterType, AuxStruct, Instruction, Lowered};
use printed_adapters::NameSet;
use std::alloc::{AllocError, Global};
use values::{Duplicate, Text};

// The qualified names of these classes.
fn class_names(alloc: Global, classes: &[AuxStruct]) -> Result<NameSet, AllocError>
    ensures names { IfOk result (λ names. names ≡ map spec.class_name classes.now) }
{
    let mut names = NameSet::new(alloc);
    for class in classes {
        let name = qualified_name(alloc, class.namespace.as_slice(), class.name.as_str())?;
        names = names.with(alloc, name.as_str())?;
    }
    Ok(names)
}

// The class that a type names.
fn type_class(ty: &AdapterType) -> Option<&Text>
    ensures class { option_copied result ≡ spec.type_class ty.now }
{
    match ty {
        AdapterType::Class(name) => Some(name),
        AdapterType::Option(inner) => type_class(inner.get()),
        _ => None,
    }
}

// The class that an instruction names.
fn instruction_class(instruction: &Instruction) -> Option<&Text>
    ensures class { option_copied result ≡ spec.instruction_class instruction.now }
{
    match instruction {
        Instruction::ClassIntoPtr(name)
        | Instruction::ClassPtr(name)
        | Instruction::ClassFromPtr(name) => Some(name),
        _ => None,
    }
}

// The name, where it is none of these.
fn where_unknown<'a>(classes: &NameSet, name: &'a Text) -> Option<&'a Text>
    ensures name { option_copied result ≡ where_true (not (is_one_of classes.now name.now)) name.now }
{
    if classes.has(name.as_str()) {
        None
    } else {
        Some(name)
    }
}

// The name, where there is one, and it is none of these.
fn unknown<'a>(classes: &NameSet, name: Option<&'a Text>) -> Option<&'a Text>
    ensures name { option_copied result ≡ spec.unknown classes.now (option_copied name.entry) }
{
    match name {
        Some(name) => where_unknown(classes, name),
        None => None,
    }
}

// The first class that these types name and that is none of these.
fn first_of_types<'a>(classes: &NameSet, types: &'a [AdapterType]) -> Option<&'a Text>
    ensures first { option_copied result ≡ first_of (spec.unknown_type classes.now) types.now }
{
    for ty in types {
        let name = unknown(classes, type_class(ty));
        if name.is_some() {
            return name;
        }
    }
    None
}

// The first such class that this code names.
fn first_of_code<'a>(classes: &NameSet, code: &'a [Instruction]) -> Option<&'a Text>
    ensures first { option_copied result ≡ first_of (spec.unknown_instruction classes.now) code.now }
{
    for instruction in code {
        let name = unknown(classes, instruction_class(instruction));
        if name.is_some() {
            return name;
        }
    }
    None
}

// The first such class that the code of an adapter of this kind names.
fn first_of_kind<'a>(classes: &NameSet, kind: &'a AdapterKind) -> Option<&'a Text>
    ensures first { option_copied result ≡ first_of (spec.unknown_instruction classes.now) (code_of kind.now) }
{
    match kind {
        AdapterKind::Local(code) => first_of_code(classes, code.as_slice()),
        AdapterKind::Import(_) => None,
    }
}

// The first such class that an adapter names.
fn unknown_in<'a>(classes: &NameSet, adapter: &'a Adapter) -> Option<&'a Text>
    ensures first { option_copied result ≡ spec.unknown_in classes.now adapter.now }
{
    let argument = first_of_types(classes, adapter.args.as_slice());
    if argument.is_some() {
        return argument;
    }
    let result = first_of_types(classes, adapter.results.as_slice());
    if result.is_some() {
        return result;
    }
    first_of_kind(classes, &adapter.kind)
}

// The first such class that one of the adapters names.
fn first_unknown<'a>(classes: &NameSet, lowered: &'a Lowered) -> Option<&'a Text>
    ensures first { option_copied result ≡ first_of (λ (e : ℕ × Adapter). spec.unknown_in classes.now e.1) lowered.now.wit.adapters }
{
    for (_, adapter) in lowered.wit.adapters.iter() {
        let name = unknown_in(classes, adapter);
        if name.is_some() {
            return name;
        }
    }
    None
}

/// That an adapter names a class that isn't described, by a type of its arguments or results or in its code. Want of memory is the only error.
pub(crate) fn unknown_class(alloc: Global, lowered: &Lowered) -> Result<Option<Fault>, AllocError>
    ensures fault { IfOk result (λ fault. fault ≡ spec.unknown_class lowered.now) }
{
    let classes = class_names(alloc, lowered.aux.structs.as_slice())?;
    match first_unknown(&classes, lowered) {
        None => Ok(None),
        Some(name) => Ok(Some(Fault::UnknownClass {
            name: name.copy(alloc)?,
        })),
    }
}
