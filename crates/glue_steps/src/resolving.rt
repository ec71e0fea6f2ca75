//! The steps of an adapter: its instructions, with what their ids name in the module and the description.
ghost use Rattle.std.specs.Prelude.{◌≡◌, Some, None, IfOk};
ghost use Rattle.std.specs.Option.{option_copied};
ghost use Rattle.glue_steps.specs.Resolving as spec;

use crate::indexed::Indexed;
use crate::memory::{
    freed, result_read, result_written, string_read, string_written, vector_read, vector_written,
};
use crate::step::Step;
use glue_imports::{Basis, Expression, Given, expression, given_item};
use glue_shared::{
    Adapter, AdapterId, AdapterJsImportKind, AdapterKind, AuxImport, Instruction, Lowered, NameMap,
    Settings,
};
use std::alloc::{AllocError, Global};
use values::{Duplicate, Seq, Text};
use wasm_core::{Export, ExportId, ExportItem, FuncId, FuncType, Module};

/// The type of a function of the module, where it is there.
pub fn function_type(module: &Module, func: FuncId) -> Option<&FuncType>
    ensures found { option_copied result ≡ spec.type_of «module».now func.0 }
{
    let entry = module.funcs().get(func.0 as usize)?.as_ref()?;
    module.types().get(entry.ty.0 as usize)?.as_ref()
}

// The call of a function of a type, by the name of its export.
fn typed_call(alloc: Global, name: &Text, ty: &FuncType) -> Result<Step, AllocError>
    ensures step { IfOk result (λ step. step ≡ spec.typed_call name.now ty.now) }
{
    Ok(Step::CallExport {
        name: name.copy(alloc)?,
        params: ty.params.len(),
        has_result: !ty.results.is_empty(),
    })
}

// The call of an export, where it is a function.
fn export_call(alloc: Global, module: &Module, export: &Export) -> Result<Option<Step>, AllocError>
    ensures step { IfOk result (λ step. step ≡ spec.call_of «module».now export.now.name export.now.item) }
{
    match export.item {
        ExportItem::Func(func) => match function_type(module, func) {
            None => Ok(None),
            Some(ty) => Ok(Some(typed_call(alloc, &export.name, ty)?)),
        },
        _ => Ok(None),
    }
}

// The call of the export at a place.
fn export_step(alloc: Global, module: &Module, id: ExportId) -> Result<Option<Step>, AllocError>
    ensures step { IfOk result (λ step. step ≡ spec.export_step «module».now id.0) }
{
    match module.exports().get(id.0 as usize) {
        Some(Some(export)) => export_call(alloc, module, export),
        _ => Ok(None),
    }
}

// The call of an import adapter of this expression.
fn expression_step(id: AdapterId, adapter: &Adapter, expression: Expression) -> Step
    ensures step { result ≡ spec.expression_step id adapter.now expression }
{
    Step::CallImport {
        adapter: id.0,
        params: adapter.args.len(),
        has_result: !adapter.results.is_empty(),
        expression,
    }
}

/// The name of the export that gives an item, or the empty one where there is no item, or none was drawn.
pub fn export_named(names: &NameMap, item: Option<ExportItem>) -> &str
    ensures name { result.now ≡ spec.export_named names.now item }
{
    let Some(item) = item else {
        return "";
    };
    match names.wasm.get(&item) {
        Some(name) => name.as_str(),
        None => "",
    }
}

// The call of what an import adapter is described as, where its expression is built.
fn described_step(
    alloc: Global,
    basis: &Basis<'_>,
    indexed: &Indexed<'_>,
    id: AdapterId,
    adapter: &Adapter,
    call: AdapterJsImportKind,
    import: &AuxImport,
) -> Result<Option<Step>, AllocError>
    ensures step { IfOk result (λ step. step ≡ spec.import_step_of basis.now.settings.now basis.now.names.now indexed.now id adapter.now call import.now) }
{
    let lowered = indexed.lowered();
    let given = Given {
        export: export_named(basis.names, given_item(lowered, import)),
        slots: lowered.aux.static_slots.as_slice(),
    };
    let has_result = !adapter.results.is_empty();
    match expression(
        alloc,
        basis,
        &given,
        call,
        indexed.is_spread(id),
        has_result,
        import,
    )? {
        None => Ok(None),
        Some(expression) => Ok(Some(expression_step(id, adapter, expression))),
    }
}

// The call of an import adapter.
fn called_import(
    alloc: Global,
    basis: &Basis<'_>,
    indexed: &Indexed<'_>,
    id: AdapterId,
    adapter: &Adapter,
) -> Result<Option<Step>, AllocError>
    ensures step { IfOk result (λ step. step ≡ spec.called_import basis.now.settings.now basis.now.names.now indexed.now id adapter.now adapter.now.kind) }
{
    match adapter.kind {
        AdapterKind::Import(call) => match indexed.described_import(id) {
            None => Ok(None),
            Some(import) => described_step(alloc, basis, indexed, id, adapter, call, import),
        },
        _ => Ok(None),
    }
}

// The call of an adapter, where it is an import adapter.
fn import_step(
    alloc: Global,
    basis: &Basis<'_>,
    indexed: &Indexed<'_>,
    id: AdapterId,
) -> Result<Option<Step>, AllocError>
    ensures step { IfOk result (λ step. step ≡ spec.import_step basis.now.settings.now basis.now.names.now indexed.now id) }
{
    match indexed.lowered().wit.adapters.get(&id) {
        None => Ok(None),
        Some(adapter) => {
            let step = called_import(alloc, basis, indexed, id, adapter)?;
            Ok(step)
        }
    }
}

// The helper that takes or gives handles: one of the object table; where references stand in a table of the module, the other
// one, with the place of that table.
fn handle_helper(
    alloc: Global,
    settings: &Settings,
    lowered: &Lowered,
    of_objects: &str,
    of_references: &str,
) -> Result<Option<Text>, AllocError>
    ensures helper { IfOk result (λ helper. helper ≡ spec.handle_helper settings.now lowered.now of_objects.now of_references.now) }
{
    if !settings.externref {
        return Ok(Some(Text::from_str(alloc, of_objects)?));
    }
    match lowered.aux.externref_table {
        None => Ok(None),
        Some(table) => {
            let place = table.0;
            Ok(Some(Text::new(format!(in alloc; "{of_references}{place}")?)))
        }
    }
}

// Its call, with a handle or an object.
fn handle_call(
    alloc: Global,
    settings: &Settings,
    lowered: &Lowered,
    of_objects: &str,
    of_references: &str,
) -> Result<Option<Step>, AllocError>
    ensures step { IfOk result (λ step. step ≡ spec.handle_call settings.now lowered.now of_objects.now of_references.now) }
{
    match handle_helper(alloc, settings, lowered, of_objects, of_references)? {
        None => Ok(None),
        Some(helper) => Ok(Some(Step::CallHelper { helper, params: 1 })),
    }
}

// The test of a result, and the throw of what its handle stands for.
fn unwrapping(
    alloc: Global,
    settings: &Settings,
    lowered: &Lowered,
) -> Result<Option<Step>, AllocError>
    ensures step { IfOk result (λ step. step ≡ spec.unwrapping settings.now lowered.now) }
{
    match handle_helper(
        alloc,
        settings,
        lowered,
        "takeObject",
        "takeFromExternrefTable",
    )? {
        None => Ok(None),
        Some(helper) => Ok(Some(Step::UnwrapResult { helper })),
    }
}

// An object is lent to the object table alone.
fn borrowing(settings: &Settings) -> Option<Step>
    ensures step { result ≡ spec.borrowing settings.now }
{
    if settings.externref {
        None
    } else {
        Some(Step::IndexFromBorrow)
    }
}

// The step that an instruction of handles is.
fn handle_step(
    alloc: Global,
    settings: &Settings,
    lowered: &Lowered,
    instruction: &Instruction,
) -> Result<Option<Step>, AllocError>
    ensures step { IfOk result (λ step. step ≡ spec.handle_step settings.now lowered.now instruction.now) }
{
    match instruction {
        Instruction::IndexFromOwned => {
            handle_call(
                alloc,
                settings,
                lowered,
                "addHeapObject",
                "addToExternrefTable",
            )
        }
        Instruction::IndexFromBorrow => Ok(borrowing(settings)),
        Instruction::TakeIndex => {
            handle_call(
                alloc,
                settings,
                lowered,
                "takeObject",
                "takeFromExternrefTable",
            )
        }
        Instruction::GetIndex => {
            handle_call(
                alloc,
                settings,
                lowered,
                "getObject",
                "getFromExternrefTable",
            )
        }
        Instruction::UnwrapResult => unwrapping(alloc, settings, lowered),
        _ => Ok(None),
    }
}

// The list of the texts of a string enum.
fn list_named(alloc: Global, name: &Text) -> Result<Text, AllocError>
    ensures name { IfOk result (λ list. list ≡ spec.list_named name.now) }
{
    let mut list = Text::from_str(alloc, "__wbindgen_enum_")?;
    list.push_str(name.as_str())?;
    Ok(list)
}

// The helper that makes closures, those that change what they hold or not.
fn closure_helper(mutable: bool) -> &'static str
    ensures helper { result.now ≡ spec.closure_helper mutable }
{
    if mutable {
        "makeMutClosure"
    } else {
        "makeClosure"
    }
}

/// The name of the function of a closure's adapter: that of the first export of the adapter, where it stands.
pub fn callback_name<'a>(indexed: &'a Indexed<'_>, id: AdapterId) -> Option<&'a Text>
    ensures name { option_copied result ≡ spec.callback_name indexed.now id }
{
    let export = indexed.callback(id)?;
    let entry = indexed.lowered().module.exports().get(export.0 as usize)?;
    match entry {
        Some(export) => Some(&export.name),
        None => None,
    }
}

// A closure is made, with the function of its adapter.
fn closure_made(
    alloc: Global,
    indexed: &Indexed<'_>,
    id: AdapterId,
    mutable: bool,
) -> Result<Option<Step>, AllocError>
    ensures step { IfOk result (λ step. step ≡ spec.closure_made indexed.now id mutable) }
{
    match callback_name(indexed, id) {
        None => Ok(None),
        Some(name) => Ok(Some(Step::MakeClosure {
            helper: Text::from_str(alloc, closure_helper(mutable))?,
            function: name.copy(alloc)?,
        })),
    }
}

// The step that an instruction is which passes values through memory or takes room there, or else passes one by a handle.
fn passing_step(
    alloc: Global,
    basis: &Basis<'_>,
    lowered: &Lowered,
    instruction: &Instruction,
) -> Result<Option<Step>, AllocError>
    ensures step { IfOk result (λ step. step ≡ spec.passing_step basis.now.settings.now basis.now.names.now lowered.now instruction.now) }
{
    let names = basis.names;
    match instruction {
        Instruction::StringToMemory(malloc, realloc, memory) => {
            string_written(alloc, names, false, *malloc, *realloc, *memory)
        }
        Instruction::OptionStringToMemory(malloc, realloc, memory) => {
            string_written(alloc, names, true, *malloc, *realloc, *memory)
        }
        Instruction::MemoryToString(memory) => string_read(alloc, *memory),
        Instruction::DeferFree(free, align) => freed(alloc, names, *free, *align),
        Instruction::VecFromWasm(kind, memory) => vector_read(alloc, *kind, *memory),
        Instruction::VecToWasm(kind, malloc, memory) => {
            vector_written(alloc, names, *kind, *malloc, *memory)
        }
        Instruction::Retptr(size) => Ok(Some(Step::ReturnPointer { size: *size })),
        Instruction::LoadRetptr(offset, ty, memory) => result_read(alloc, *offset, *ty, *memory),
        Instruction::StoreRetptr(offset, ty, memory) => {
            result_written(alloc, *offset, *ty, *memory)
        }
        other => handle_step(alloc, basis.settings, lowered, other),
    }
}

// The step that an instruction is, where it is built.
fn step_of(
    alloc: Global,
    basis: &Basis<'_>,
    indexed: &Indexed<'_>,
    instruction: &Instruction,
) -> Result<Option<Step>, AllocError>
    ensures step { IfOk result (λ step. step ≡ spec.step_of basis.now.settings.now basis.now.names.now indexed.now instruction.now) }
{
    match instruction {
        Instruction::ArgGet(place) => Ok(Some(Step::Parameter(*place))),
        Instruction::Int32ToWasm | Instruction::WasmToInt32(false) => Ok(Some(Step::Unchanged)),
        Instruction::WasmToInt32(true) => Ok(Some(Step::ToUnsigned)),
        Instruction::CallExport(id) => export_step(alloc, &indexed.lowered().module, *id),
        Instruction::CallAdapter(id) => import_step(alloc, basis, indexed, *id),
        Instruction::Int64ToWasm | Instruction::I32FromBool | Instruction::WasmToInt64(false) => {
            Ok(Some(Step::Unchanged))
        }
        Instruction::WasmToInt64(true) => Ok(Some(Step::ToUnsigned64)),
        Instruction::BoolFromI32 => Ok(Some(Step::IsNotZero)),
        Instruction::Closure(id, mutable) => closure_made(alloc, indexed, *id, *mutable),
        Instruction::EnumIndex(name) => Ok(Some(Step::IndexOf {
            list: list_named(alloc, name)?,
        })),
        Instruction::EnumText(name) => Ok(Some(Step::ItemAt {
            list: list_named(alloc, name)?,
        })),
        other => passing_step(alloc, basis, indexed.lowered(), other),
    }
}

// The steps of code, where each instruction is built.
fn steps_of(
    alloc: Global,
    basis: &Basis<'_>,
    indexed: &Indexed<'_>,
    code: &[Instruction],
) -> Result<Option<Seq<Step>>, AllocError>
    ensures steps { IfOk result (λ steps. steps ≡ spec.steps_of basis.now.settings.now basis.now.names.now indexed.now code.now) }
{
    let mut steps = Seq::new(alloc);
    for instruction in code {
        match step_of(alloc, basis, indexed, instruction)? {
            None => return Ok(None),
            Some(step) => steps.push(step)?,
        }
    }
    Ok(Some(steps))
}

/// The steps of an adapter, where it has code and each of its instructions is built. Want of memory is the only error.
pub fn adapter_steps(
    alloc: Global,
    basis: &Basis<'_>,
    indexed: &Indexed<'_>,
    id: AdapterId,
) -> Result<Option<Seq<Step>>, AllocError>
    ensures steps { IfOk result (λ steps. steps ≡ spec.adapter_steps basis.now.settings.now basis.now.names.now indexed.now id) }
{
    match indexed.lowered().wit.adapters.get(&id) {
        None => Ok(None),
        Some(adapter) => match &adapter.kind {
            AdapterKind::Local(code) => steps_of(alloc, basis, indexed, code.as_slice()),
            AdapterKind::Import(_) => Ok(None),
        },
    }
}
