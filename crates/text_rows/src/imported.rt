//! Calls on an import, of which a row has `what` it is, as a description has it, and where that begins with a name that isn't of the global scope
//! under `drawn` the name that was drawn for it.
//!
//! - `import_text`: `text` are the statements of the function that calls the import. `kind` says how it is called, `args` has a letter for each
//!   operand (`i` for one that is read as signed, `u` for one that is read as unsigned, `b` for a truth, `n` for a truth that is read as an
//!   unsigned number), and the truths `variadic` and `result` say whether the last operand is spread, and whether there is a result. `export` is
//!   the name of the export that gives an item of the module, `slots` lists the texts of a table of references, and the settings are those of a
//!   row.
//! - `import_definition`: `text` is the expression that defines an import which only hands on to a property of a module's name.
use crate::described::{module_of, part_at, part_of, settings_at};
use glue_binding::bind;
use glue_imports::{Basis, Part, function_or_throw, root};
use glue_inputs::printed;
use glue_operands::{spell, usual_form};
use glue_published::copied_import;
use glue_scope::IdentScope;
use glue_shared::{
    Adapter, AdapterId, AdapterKind, AdapterType, AuxImport, Instruction, JsImport, Lowered,
    NameMap, NonstandardWitSection, StaticSlot, WasmBindgenAux, js_import,
};
use glue_steps::{Indexed, Step, adapter_steps};
use rows::{
    RowFault, array_at, flag_at, opt_array_at, opt_text_at, text_at, text_difference, text_of,
};
use serde_json::Value;
use std::alloc::{AllocError, Global};
use values::{Map, Seq, Text};
use wasm_core::{ExportItem, MemoryId, TableId};

// A module with a table of functions, one of references, and a memory.
const MODULE: &[u8] = b"\0asm\x01\0\0\0\x04\x07\x02\x70\0\0\x6f\0\0\x05\x03\x01\0\x01";

// The adapter that takes the operands.
const CALLER: AdapterId = AdapterId(0);

// The import adapter that it calls.
const CALLEE: AdapterId = AdapterId(1);

/// The first difference of a row with one of these calls.
pub fn difference(alloc: Global, row: &Value) -> Result<Option<String>, RowFault> {
    let want = text_at(row, "text")?;
    match text_at(row, "call")? {
        "import_text" => {
            let function = function_of(alloc, row)?;
            Ok(text_difference(alloc, "text", statements(function.as_str()), want)?)
        }
        _ => {
            let text = definition_of(alloc, row)?;
            Ok(text_difference(alloc, "text", text.as_str(), want)?)
        }
    }
}

// Adds what makes an operand of the parameter at a place.
fn push_operand(code: &mut Seq<Instruction>, place: u32, letter: &str) -> Result<(), RowFault> {
    code.push(Instruction::ArgGet(place))?;
    match letter {
        "i" => code.push(Instruction::WasmToInt32(false))?,
        "u" => code.push(Instruction::WasmToInt32(true))?,
        "b" => code.push(Instruction::BoolFromI32)?,
        "n" => {
            code.push(Instruction::BoolFromI32)?;
            code.push(Instruction::I32FromBool)?;
            code.push(Instruction::WasmToInt32(true))?;
        }
        _ => return Err(RowFault::Row),
    }
    Ok(())
}

// The operands of a row, and the call.
fn code_of(alloc: Global, args: &[Value], has_result: bool) -> Result<Seq<Instruction>, RowFault> {
    let mut code = Seq::new(alloc);
    let mut place = 0u32;
    for letter in args {
        push_operand(&mut code, place, text_of(letter)?)?;
        place = place.wrapping_add(1);
    }
    code.push(Instruction::CallAdapter(CALLEE))?;
    if has_result {
        code.push(Instruction::Int32ToWasm)?;
    }
    Ok(code)
}

// So many integers of 32 bits.
fn integers(alloc: Global, count: usize) -> Result<Seq<AdapterType>, AllocError> {
    let mut types = Seq::new(alloc);
    for _ in 0..count {
        types.push(AdapterType::S32)?;
    }
    Ok(types)
}

fn adapter(
    alloc: Global,
    count: usize,
    has_result: bool,
    kind: AdapterKind,
) -> Result<Adapter, AllocError> {
    let args = integers(alloc, count)?;
    let results = integers(alloc, usize::from(has_result))?;
    Ok(Adapter {
        args,
        results,
        kind,
    })
}

// The adapter that takes the operands.
fn caller_of(alloc: Global, row: &Value) -> Result<Adapter, RowFault> {
    let (args, has_result) = (array_at(row, "args")?, flag_at(row, "result")?);
    let code = code_of(alloc, args, has_result)?;
    Ok(adapter(alloc, args.len(), has_result, AdapterKind::Local(code))?)
}

// The import adapter.
fn callee_of(alloc: Global, row: &Value) -> Result<Adapter, RowFault> {
    let (args, has_result) = (array_at(row, "args")?, flag_at(row, "result")?);
    let kind = part_at(alloc, row, "kind")?;
    Ok(adapter(alloc, args.len(), has_result, AdapterKind::Import(kind))?)
}

fn put_adapters(
    alloc: Global,
    row: &Value,
    adapters: &mut Map<AdapterId, Adapter>,
) -> Result<(), RowFault> {
    drop(adapters.insert(CALLER, caller_of(alloc, row)?)?);
    drop(adapters.insert(CALLEE, callee_of(alloc, row)?)?);
    Ok(())
}

// The texts that stand in a table of references.
fn slots_of(alloc: Global, row: &Value) -> Result<Seq<StaticSlot>, RowFault> {
    let mut slots = Seq::new(alloc);
    for slot in opt_array_at(row, "slots")?.unwrap_or(&[]) {
        slots.push(part_of(alloc, slot)?)?;
    }
    Ok(slots)
}

// Says what stands beside the adapters: both tables by their names, and the import.
fn put_aux(alloc: Global, row: &Value, aux: &mut WasmBindgenAux) -> Result<(), RowFault> {
    aux.function_table = Some(TableId(0));
    aux.externref_table = Some(TableId(1));
    aux.static_slots = slots_of(alloc, row)?;
    if flag_at(row, "variadic")? {
        aux.imports_with_variadic.push(CALLEE)?;
    }
    Ok(aux.imports.push((CALLEE, part_at(alloc, row, "what")?))?)
}

fn put_parts(alloc: Global, row: &Value, lowered: &mut Lowered) -> Result<(), RowFault> {
    put_adapters(alloc, row, &mut lowered.wit.adapters)?;
    put_aux(alloc, row, &mut lowered.aux)
}

fn lowered_of(alloc: Global, row: &Value) -> Result<Lowered, RowFault> {
    let mut lowered = Lowered {
        module: module_of(alloc, MODULE)?,
        wit: NonstandardWitSection::empty(alloc),
        aux: WasmBindgenAux::empty(alloc),
    };
    put_parts(alloc, row, &mut lowered)?;
    Ok(lowered)
}

// Adds the name of the export that gives an item of the module, where there is one.
fn put_export(
    alloc: Global,
    names: &mut NameMap,
    item: ExportItem,
    name: Option<&str>,
) -> Result<(), AllocError> {
    if let Some(name) = name {
        drop(names.wasm.insert(item, Text::from_str(alloc, name)?)?);
    }
    Ok(())
}

// Adds those of the memory and of both tables.
fn put_exports(alloc: Global, names: &mut NameMap, exports: &Value) -> Result<(), RowFault> {
    let items = [
        (ExportItem::Memory(MemoryId(0)), "memory"),
        (ExportItem::Table(TableId(0)), "functions"),
        (ExportItem::Table(TableId(1)), "references"),
    ];
    for (item, key) in items {
        put_export(alloc, names, item, opt_text_at(exports, key)?)?;
    }
    Ok(())
}

// Adds the name that was drawn for what an import begins with.
fn put_drawn(
    alloc: Global,
    names: &mut NameMap,
    js: Option<&JsImport>,
    drawn: &str,
) -> Result<(), RowFault> {
    let Some(js) = js else {
        return Err(RowFault::Row);
    };
    let name = copied_import(alloc, &js.name)?;
    drop(names.imports.insert(name, Text::from_str(alloc, drawn)?)?);
    Ok(())
}

fn put_names(
    alloc: Global,
    row: &Value,
    js: Option<&JsImport>,
    names: &mut NameMap,
) -> Result<(), RowFault> {
    if let Some(exports) = row.get("exports") {
        put_exports(alloc, names, exports)?;
    }
    match opt_text_at(row, "drawn")? {
        Some(drawn) => put_drawn(alloc, names, js, drawn),
        None => Ok(()),
    }
}

// The names of a row.
fn names_of(alloc: Global, row: &Value, js: Option<&JsImport>) -> Result<NameMap, RowFault> {
    let mut names = NameMap::new(alloc);
    put_names(alloc, row, js, &mut names)?;
    Ok(names)
}

// What the import of a description begins with.
fn first_import(lowered: &Lowered) -> Option<&JsImport> {
    match lowered.aux.imports.get(0) {
        Some((_, what)) => js_import(what),
        None => None,
    }
}

// The steps that an adapter has.
fn given(steps: Result<Option<Seq<Step>>, AllocError>) -> Result<Seq<Step>, RowFault> {
    match steps {
        Ok(Some(steps)) => Ok(steps),
        Ok(None) => Err(RowFault::Row),
        Err(AllocError) => Err(RowFault::OutOfMemory),
    }
}

fn steps_by(alloc: Global, basis: &Basis<'_>, lowered: &Lowered) -> Result<Seq<Step>, RowFault> {
    let indexed = Indexed::new(alloc, lowered)?;
    given(adapter_steps(alloc, basis, &indexed, CALLER))
}

fn steps_with(
    alloc: Global,
    row: &Value,
    names: &NameMap,
    lowered: &Lowered,
) -> Result<Seq<Step>, RowFault> {
    let settings = settings_at(alloc, row)?;
    let basis = Basis {
        settings: &settings,
        names,
    };
    steps_by(alloc, &basis, lowered)
}

fn steps_in(alloc: Global, row: &Value, lowered: &Lowered) -> Result<Seq<Step>, RowFault> {
    let names = names_of(alloc, row, first_import(lowered))?;
    steps_with(alloc, row, &names, lowered)
}

// The steps of the adapter of a row.
fn steps_of(alloc: Global, row: &Value) -> Result<Seq<Step>, RowFault> {
    let lowered = lowered_of(alloc, row)?;
    steps_in(alloc, row, &lowered)
}

// The parameters of so many operands.
fn parameters(alloc: Global, count: usize) -> Result<Seq<Text>, AllocError> {
    let mut names = Seq::new(alloc);
    for place in 0..count {
        names.push(Text::new(format!(in alloc; "arg{place}")?))?;
    }
    Ok(names)
}

// The function of steps, printed.
fn function_by(alloc: Global, steps: &[Step], count: usize) -> Result<String, AllocError> {
    let wanted = parameters(alloc, count)?;
    let function = bind::<IdentScope>(alloc, steps, wanted.as_slice(), usual_form(), &[])?;
    printed(alloc, function.words)
}

fn function_of(alloc: Global, row: &Value) -> Result<String, RowFault> {
    let count = array_at(row, "args")?.len();
    let steps = steps_of(alloc, row)?;
    Ok(function_by(alloc, steps.as_slice(), count)?)
}

// What stands between the braces of a function.
fn statements(text: &str) -> &str {
    match text.split_once("{\n") {
        Some((_, behind)) => behind.strip_suffix("\n}").unwrap_or(behind),
        None => text,
    }
}

// The text of parts without operands.
fn parts_text(alloc: Global, parts: &[Part]) -> Result<String, AllocError> {
    let words = spell(alloc, parts)?;
    printed(alloc, words)
}

fn value_text(alloc: Global, names: &NameMap, js: &JsImport) -> Result<String, AllocError> {
    let parts = root(alloc, names, js)?;
    parts_text(alloc, parts.as_slice())
}

fn definition_by(alloc: Global, names: &NameMap, js: &JsImport) -> Result<String, AllocError> {
    let text = Text::new(value_text(alloc, names, js)?);
    let parts = function_or_throw(alloc, names, js, text)?;
    parts_text(alloc, parts.as_slice())
}

fn definition_in(alloc: Global, row: &Value, js: &JsImport) -> Result<String, RowFault> {
    let names = names_of(alloc, row, Some(js))?;
    Ok(definition_by(alloc, &names, js)?)
}

// The expression that defines the import of a row.
fn definition_of(alloc: Global, row: &Value) -> Result<String, RowFault> {
    let what: AuxImport = part_at(alloc, row, "what")?;
    match js_import(&what) {
        Some(js) => definition_in(alloc, row, js),
        None => Err(RowFault::Row),
    }
}
