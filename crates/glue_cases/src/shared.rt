use crate::compare::assert_told;
use glue_inputs::{CONFIG, settings, shown};
use glue_shared::{
    Adapter, AdapterId, AdapterKind, EncodeInto, Instruction, Lowered, NonstandardWitSection,
    Target, WasmBindgenAux, live_count, own_imports, roots,
};
use std::alloc::{AllocError, Global};
use values::{Map, Seq};
use wasm_core::{FuncId, ImportId, MemoryId, Module, ParseFault};

/// An adapter that names function 1 and a memory that isn't there.
fn adapter(alloc: Global) -> Result<Adapter, AllocError> {
    let mut code = Seq::new(alloc);
    code.push(Instruction::DeferFree(FuncId(1), 4))?;
    code.push(Instruction::MemoryToString(MemoryId(7)))?;
    Ok(Adapter {
        args: Seq::new(alloc),
        results: Seq::new(alloc),
        kind: AdapterKind::Local(code),
    })
}

fn adapters(alloc: Global) -> Result<Map<AdapterId, Adapter>, AllocError> {
    let adapter = adapter(alloc)?;
    let mut adapters = Map::new(alloc);
    drop(adapters.insert(AdapterId(0), adapter)?);
    Ok(adapters)
}

fn implements(alloc: Global) -> Result<Seq<(ImportId, AdapterId)>, AllocError> {
    let mut implements = Seq::new(alloc);
    implements.push((ImportId(0), AdapterId(0)))?;
    Ok(implements)
}

/// It stands for import 0.
fn section(alloc: Global) -> Result<NonstandardWitSection, AllocError> {
    let adapters = adapters(alloc)?;
    Ok(NonstandardWitSection {
        adapters,
        implements: implements(alloc)?,
        exports: Seq::new(alloc),
    })
}

/// An imported function, one of the module's own, and a memory.
const ONE_IMPORT: &[u8] =
    b"\0asm\x01\0\0\0\x01\x04\x01\x60\0\0\x02\x09\x01\x03env\x01f\0\0\x03\x02\x01\0\x05\x03\x01\0\x01\x0a\x04\x01\x02\0\x0b";

/// An exception store that isn't there.
fn with_store(alloc: Global) -> WasmBindgenAux {
    let mut aux = WasmBindgenAux::empty(alloc);
    aux.exn_store = Some(FuncId(5));
    aux
}

/// That module with the adapter and the store.
fn lowered(alloc: Global) -> Result<Lowered, ParseFault> {
    let module = Module::parse(alloc, ONE_IMPORT, &CONFIG)?;
    Ok(Lowered {
        module,
        wit: section(alloc)?,
        aux: with_store(alloc),
    })
}

fn roots_told(alloc: Global) -> Result<String, ParseFault> {
    let lowered = lowered(alloc)?;
    let found = roots(alloc, &lowered);
    drop(lowered);
    Ok(shown(alloc, found?)?)
}

/// The own imports of that module: the one that an adapter implements.
fn own_told(alloc: Global) -> Result<String, ParseFault> {
    let lowered = lowered(alloc)?;
    let settings = settings(alloc, Target::Deno, EncodeInto::Test)?;
    let own = own_imports(
        alloc,
        &settings,
        &lowered.module,
        &lowered.wit,
        &lowered.aux,
    );
    drop(lowered);
    Ok(shown(alloc, own?.into_vec())?)
}

/// Roots are what is named and there, and own imports those that adapters implement.
#[test]
fn what_is_named_and_there_is_told(rt: HostRuntime) -> Result<(), ParseFault> {
    let roots = "[Func(FuncId(1)), Func(FuncId(0)), Memory(MemoryId(0))]";
    assert_told(&rt, roots_told(rt.alloc()), roots)?;
    assert_told(&rt, own_told(rt.alloc()), "[ImportId(0)]")?;
    assert!(rt; live_count(&[Some(1u8), None, Some(2)]) == 2);
    assert!(rt; live_count::<u8>(&[]) == 0);
    Ok(())
}
