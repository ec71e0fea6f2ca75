//! What is changed in the collected module: one value, the call that makes it, and the call that carries it out.
ghost use Rattle.std.specs.Prelude.{◌≡◌, ◌++◌, ◌∷◌, [], true, option_map, filter_map, map, IfOk, OnOk, Some};
ghost use Rattle.wasm_core.specs.declared.types.Import as declared;
ghost use Rattle.glue_shared.specs.Names.{own_imports};
ghost use Rattle.glue_steps.specs.Resolving.{entry_at};
ghost use Rattle.glue_context.specs.Edits as spec;
ghost use Rattle.glue_context.specs.Rewritten.{move_of, handed_move, all_moves, shim_global, edits_of};

use glue_check::{glue_module_name, has_start};
use glue_lines::source_of;
use glue_names::START;
use glue_naming::handed_imports;
use glue_scope::Names;
use glue_shared::{JsImportName, Lowered, Settings};
use printed_adapters::{SHIM, uses_shim};
use std::alloc::{AllocError, Global};
use taken_items::added_exports;
use values::{Duplicate, Seq, Text};
use wasm_core::{Body, ExportItem, FuncType, GlobalId, ImportId, Module, Op, Ops, ValType};

// Opcodes (WebAssembly core specification, 5.4).
const LOCAL_GET: u8 = 0x20;

const GLOBAL_GET: u8 = 0x23;

const GLOBAL_SET: u8 = 0x24;

const I32_ADD: u8 = 0x6A;

/// What is changed in the collected module. Nothing else of it changes.
#[derive(Debug, Drop)]
pub struct Edits {
    /// Imports that come from another module from now on: each with that module, and its name there.
    pub imports: Seq<(ImportId, Text, Text)>,
    /// Exports that are added, in order: each with its name.
    pub exports: Seq<(Text, ExportItem)>,
    /// The global over which the shim is added and exported: it holds the stack pointer.
    pub shim: Option<GlobalId>,
    /// Whether the start function becomes the export `START`.
    pub start: bool,
}

// The name of the import at a place, where one stands there.
fn import_name(alloc: Global, module: &Module, place: ImportId) -> Result<Option<Text>, AllocError>
    ensures name { IfOk result (λ name. name ≡ option_map (λ (i : declared.Import). i.name) (entry_at «module».now.imports place.0)) }
{
    match module.imports().get(place.0 as usize) {
        Some(Some(import)) => Ok(Some(import.name.copy(alloc)?)),
        _ => Ok(None),
    }
}

// The move of an import to the glue file's module, where it stands.
fn move_import(
    alloc: Global,
    stem: &str,
    module: &Module,
    place: ImportId,
) -> Result<Option<(ImportId, Text, Text)>, AllocError>
    ensures found { IfOk result (λ found. found ≡ move_of stem.now «module».now.imports place.0) }
{
    match import_name(alloc, module, place)? {
        Some(name) => Ok(Some((place, glue_module_name(alloc, stem)?, name))),
        None => Ok(None),
    }
}

// Adds the move of an import to the glue file's module, where it stands.
fn push_move(
    alloc: Global,
    stem: &str,
    module: &Module,
    place: ImportId,
    moves: &mut Seq<(ImportId, Text, Text)>,
) -> Result<(), AllocError>
    ensures pushed { OnOk result (moves.new ≡ moves.old ++ filter_map (move_of stem.now «module».now.imports) (place.0 ∷ [])) }
{
    if let Some(found) = move_import(alloc, stem, module, place)? {
        moves.push(found)?;
    }
    Ok(())
}

// The moves of the imports at these places.
fn move_imports(
    alloc: Global,
    stem: &str,
    module: &Module,
    places: &[ImportId],
) -> Result<Seq<(ImportId, Text, Text)>, AllocError>
    ensures moves { IfOk result (λ moves. moves ≡ filter_map (move_of stem.now «module».now.imports) (map (λ id. id.0) places.now)) }
{
    let mut moves = Seq::new(alloc);
    for place in places {
        push_move(alloc, stem, module, *place, &mut moves)?;
    }
    Ok(moves)
}

// The move of an import to the module of a described name, where it stands and the name has one.
fn hand_on(
    alloc: Global,
    module: &Module,
    handed: &(ImportId, JsImportName),
) -> Result<Option<(ImportId, Text, Text)>, AllocError>
    ensures found { IfOk result (λ found. found ≡ handed_move «module».now.imports handed.now) }
{
    match module.imports().get(handed.0.0 as usize) {
        Some(Some(_)) => match source_of(alloc, &handed.1)? {
            Some((path, name)) => Ok(Some((handed.0, path, name))),
            None => Ok(None),
        },
        _ => Ok(None),
    }
}

// Adds that move.
fn push_handed(
    alloc: Global,
    module: &Module,
    handed: &(ImportId, JsImportName),
    moves: &mut Seq<(ImportId, Text, Text)>,
) -> Result<(), AllocError>
    ensures pushed { OnOk result (moves.new ≡ moves.old ++ filter_map (handed_move «module».now.imports) (handed.now ∷ [])) }
{
    if let Some(found) = hand_on(alloc, module, handed)? {
        moves.push(found)?;
    }
    Ok(())
}

// Those of these imports.
fn push_handed_on(
    alloc: Global,
    module: &Module,
    handed: &[(ImportId, JsImportName)],
    moves: &mut Seq<(ImportId, Text, Text)>,
) -> Result<(), AllocError>
    ensures pushed { OnOk result (moves.new ≡ moves.old ++ filter_map (handed_move «module».now.imports) handed.now) }
{
    for import in handed {
        push_handed(alloc, module, import, moves)?;
    }
    Ok(())
}

/// The moves of own imports, and of those that become described names. Want of memory is the only error.
pub(crate) fn all_moves(
    alloc: Global,
    settings: &Settings,
    lowered: &Lowered,
) -> Result<Seq<(ImportId, Text, Text)>, AllocError>
    ensures moves { IfOk result (λ moves. moves ≡ all_moves settings.now lowered.now) }
{
    let places = glue_shared::own_imports(
        alloc,
        settings,
        &lowered.module,
        &lowered.wit,
        &lowered.aux,
    )?;
    let mut moves = move_imports(
        alloc,
        settings.stem.as_str(),
        &lowered.module,
        places.as_slice(),
    )?;
    let handed = handed_imports(alloc, settings, lowered)?;
    push_handed_on(alloc, &lowered.module, handed.as_slice(), &mut moves)?;
    Ok(moves)
}

// The global over which the shim is added, where the function of an adapter takes room for results.
fn shim_global(
    alloc: Global,
    settings: &Settings,
    lowered: &Lowered,
) -> Result<Option<GlobalId>, AllocError>
    ensures global { IfOk result (λ global. global ≡ shim_global settings.now lowered.now) }
{
    if uses_shim(alloc, settings, lowered)? {
        Ok(lowered.aux.stack_pointer)
    } else {
        Ok(None)
    }
}

/// What settings and a description ask to be changed in the collected module. The shim, a function that moves the stack pointer, is added and
/// exported where the function of an adapter takes room for results: that function calls it. Want of memory is the only error.
pub fn edits_of<N: Names>(
    alloc: Global,
    settings: &Settings,
    lowered: &Lowered,
) -> Result<Edits, AllocError>
    ensures edits { IfOk result (λ edits. edits ≡ edits_of settings.now lowered.now) }
    ensures fit { IfOk result (λ edits. spec.AreFit edits lowered.now.«module») }
{
    let imports = all_moves(alloc, settings, lowered)?;
    let exports = added_exports::<N>(alloc, settings, lowered)?;
    let shim = shim_global(alloc, settings, lowered)?;
    Ok(Edits {
        imports,
        exports,
        shim,
        start: has_start(&lowered.module),
    })
}

// A list of the type of 32-bit integers alone.
fn one_integer(alloc: Global) -> Result<Seq<ValType>, AllocError>
    ensures types { IfOk result (λ types. types ≡ ValType.I32 ∷ []) }
{
    let mut types = Seq::new(alloc);
    types.push(ValType::I32)?;
    Ok(types)
}

// A 32-bit integer is taken, and one is given.
fn shim_type(alloc: Global) -> Result<FuncType, AllocError>
    ensures ty { IfOk result (λ ty. ty ≡ spec.shim_type) }
{
    Ok(FuncType {
        params: one_integer(alloc)?,
        results: one_integer(alloc)?,
    })
}

// Adds the argument to a global, and gives the sum.
fn shim_body(alloc: Global, global: GlobalId) -> Result<Body, AllocError>
    ensures body { IfOk result (λ body. body ≡ spec.shim_body global.0) }
{
    let mut ops = Seq::new(alloc);
    ops.push(Op::Local(LOCAL_GET, 0))?;
    ops.push(Op::Global(GLOBAL_GET, global))?;
    ops.push(Op::Plain(I32_ADD))?;
    ops.push(Op::Global(GLOBAL_SET, global))?;
    ops.push(Op::Global(GLOBAL_GET, global))?;
    Ok(Body {
        locals: Seq::new(alloc),
        ops: Ops::pack(alloc, ops.as_slice())?,
    })
}

// Adds and exports the shim over the global that holds the stack pointer.
#[tactic(auto, using(std::proofs::lemmas::Grind::common_steps, std::proofs::lemmas::Option::slice_get_cases), unfolding(wasm_core::specs::Edits::with_func))]
fn add_shim(alloc: Global, module: &mut Module, global: GlobalId) -> Result<(), AllocError>
    ensures added { OnOk result («module».new ≡ spec.with_shim (Some global) «module».old) }
{
    let body = shim_body(alloc, global)?;
    let ty = shim_type(alloc)?;
    let id = module.add_func(alloc, ty, SHIM, body)?;
    module.add_export(alloc, SHIM, ExportItem::Func(id))?;
    Ok(())
}

// The same, where there is such a global.
fn add_shim_over(
    alloc: Global,
    module: &mut Module,
    global: Option<GlobalId>,
) -> Result<(), AllocError>
    ensures added { OnOk result («module».new ≡ spec.with_shim global «module».old) }
{
    match global {
        Some(global) => add_shim(alloc, module, global),
        None => Ok(()),
    }
}

// Makes the start function an export.
#[tactic(auto, unfolding(wasm_core::specs::Edits::without_start))]
fn export_start(alloc: Global, module: &mut Module) -> Result<(), AllocError>
    requires stands { spec.HasStart true «module».old }
    ensures moved { OnOk result («module».new ≡ spec.with_start_exported «module».old.start «module».old) }
{
    if let Some(start) = module.take_start() {
        module.add_export(alloc, START, ExportItem::Func(start))?;
    }
    Ok(())
}

/// Changes the module as the edits say, and nothing else of it: imports move, exports are added, the shim is added and exported, and the
/// start function becomes an export. Want of memory is the only error; then some of the changes are made, and the module is of no use.
#[tactic(auto, using(std::proofs::lemmas::Grind::common_steps, std::proofs::lemmas::Option::slice_get_cases), unfolding(wasm_core::specs::Edits::with_import, wasm_core::specs::Edits::with_export, wasm_core::specs::Edits::with_func))]
pub fn apply_edits(alloc: Global, module: &mut Module, edits: &Edits) -> Result<(), AllocError>
    requires fit { spec.AreFit edits.now «module».old }
    ensures edited { OnOk result («module».new ≡ spec.edited edits.now «module».old) }
{
    for entry in edits.imports.as_slice() {
        module.set_import(alloc, entry.0, entry.1.as_str(), entry.2.as_str())?;
    }
    for added in edits.exports.as_slice() {
        module.add_export(alloc, added.0.as_str(), added.1)?;
    }
    add_shim_over(alloc, module, edits.shim)?;
    if edits.start {
        export_start(alloc, module)
    } else {
        Ok(())
    }
}
