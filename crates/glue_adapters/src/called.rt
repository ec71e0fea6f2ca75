//! What an import has to be called with.
ghost use Rattle.std.specs.Prelude.{◌≡◌, IfOk, find, option_map};
ghost use Rattle.std.specs.Option.{option_copied};
ghost use Rattle.glue_adapters.specs.Called as spec;
ghost use Rattle.glue_adapters.specs.Pairs as pairs;

use glue_faults::IdSet;
use glue_shared::{
    Adapter, AdapterId, AdapterJsImportKind, AdapterKind, AuxImport, AuxValue, Intrinsic, Lowered,
};
use std::alloc::{AllocError, Global};

// Whether an import may be called in this way: a value in any, an accessor as a method, all others as functions.
fn fits_call(call: AdapterJsImportKind, what: &AuxImport) -> bool
    ensures test { result ≡ spec.fits_call call what.now }
{
    match what {
        AuxImport::Value(AuxValue::Bare(_)) => true,
        AuxImport::Value(_) => matches!(call, AdapterJsImportKind::Method),
        _ => matches!(call, AdapterJsImportKind::Normal),
    }
}

// How many arguments an intrinsic takes, where they are counted.
fn intrinsic_count(intrinsic: Intrinsic) -> Option<usize>
    ensures count { result ≡ spec.intrinsic_count intrinsic }
{
    match intrinsic {
        Intrinsic::Exports
        | Intrinsic::ExternrefHeapLiveCount
        | Intrinsic::FunctionTable
        | Intrinsic::Instance
        | Intrinsic::Memory
        | Intrinsic::Module
        | Intrinsic::Reinit => Some(0),
        Intrinsic::InitExternrefTable => None,
        Intrinsic::Add
        | Intrinsic::BitAnd
        | Intrinsic::BitOr
        | Intrinsic::BitXor
        | Intrinsic::CheckedDiv
        | Intrinsic::CopyToTypedArray
        | Intrinsic::Div
        | Intrinsic::GE
        | Intrinsic::GT
        | Intrinsic::InOperator
        | Intrinsic::JsvalEq
        | Intrinsic::JsvalLooseEq
        | Intrinsic::LE
        | Intrinsic::LT
        | Intrinsic::Mul
        | Intrinsic::Pow
        | Intrinsic::Rem
        | Intrinsic::Shl
        | Intrinsic::Shr
        | Intrinsic::Sub
        | Intrinsic::UnsignedShr => Some(2),
        _ => Some(1),
    }
}

// How many arguments an import takes, where they are counted.
fn argument_count(what: &AuxImport) -> Option<usize>
    ensures count { result ≡ spec.argument_count what.now }
{
    match what {
        AuxImport::Value(_) | AuxImport::ValueWithThis(_, _) | AuxImport::StructuralMethod(_) => {
            None
        }
        AuxImport::Static(_, _)
        | AuxImport::String(_)
        | AuxImport::StructuralClassGetter(_, _)
        | AuxImport::LinkTo(_, _) => Some(0),
        AuxImport::StructuralSetter(_)
        | AuxImport::IndexingSetterOfClass(_)
        | AuxImport::IndexingGetterOfObject
        | AuxImport::IndexingDeleterOfObject => Some(2),
        AuxImport::IndexingSetterOfObject => Some(3),
        AuxImport::Intrinsic(intrinsic) => intrinsic_count(*intrinsic),
        _ => Some(1),
    }
}

// Whether the last argument may be spread.
fn may_spread(what: &AuxImport) -> bool
    ensures test { result ≡ spec.may_spread what.now }
{
    matches!(
        what,
        AuxImport::Value(_) | AuxImport::ValueWithThis(_, _) | AuxImport::StructuralMethod(_)
    )
}

// The fewest arguments: the object that has a method, and one that is spread.
fn fewest(spread: bool, what: &AuxImport) -> usize
    ensures count { result ≡ spec.fewest spread what.now }
{
    let own = match what {
        AuxImport::StructuralMethod(_) => 1,
        _ => 0,
    };
    own + usize::from(spread)
}

fn is_count(wanted: Option<usize>, count: usize) -> bool
    ensures test { result ≡ spec.is_count wanted count }
{
    match wanted {
        None => true,
        Some(wanted) => wanted == count,
    }
}

// Whether there are as many arguments as the import takes, and one to spread, where that is asked for.
fn fits_count(spread: bool, what: &AuxImport, count: usize) -> bool
    ensures test { result ≡ spec.fits_count spread what.now count }
{
    is_count(argument_count(what), count)
        && (!spread || may_spread(what))
        && fewest(spread, what) <= count
}

// Whether a statement gives no result.
fn fits_result(what: &AuxImport, count: usize) -> bool
    ensures test { result ≡ spec.fits_result what.now count }
{
    match what {
        AuxImport::Intrinsic(
            Intrinsic::Throw | Intrinsic::Rethrow | Intrinsic::InitExternrefTable,
        ) => count == 0,
        _ => true,
    }
}

// Whether an import is called as it asks for.
fn calls_right(spread: bool, what: &AuxImport, adapter: &Adapter) -> bool
    ensures test { result ≡ spec.calls_right spread what.now adapter.now adapter.now.kind }
{
    match adapter.kind {
        AdapterKind::Import(call) => {
            fits_call(call, what)
                && fits_count(spread, what, adapter.args.len())
                && fits_result(what, adapter.results.len())
        }
        _ => false,
    }
}

// Whether there is an adapter that calls the import, as it asks for.
fn fits_import(spread: bool, what: &AuxImport, adapter: Option<&Adapter>) -> bool
    ensures test { result ≡ spec.fits_import spread what.now (option_copied adapter.entry) }
{
    match adapter {
        None => false,
        Some(adapter) => calls_right(spread, what, adapter),
    }
}

// Whether an entry's import isn't called as it asks for, where the last arguments of these adapters are spread.
#[tactic(auto, unfolding(crate::specs::Pairs::is_bad_entry))]
fn is_bad_entry(lowered: &Lowered, spread: &IdSet, entry: &(AdapterId, AuxImport)) -> bool
    ensures test { result ≡ pairs.is_bad_entry lowered.now spread.now entry.now }
{
    !fits_import(
        spread.has(entry.0.0),
        &entry.1,
        lowered.wit.adapters.get(&entry.0),
    )
}

// The adapter of the first such entry.
fn first_bad(lowered: &Lowered, spread: &IdSet) -> Option<AdapterId>
    ensures bad { result ≡ option_map (λ entry. entry.0) (find (pairs.is_bad_entry lowered.now spread.now) lowered.now.aux.imports) }
{
    lowered
        .aux
        .imports
        .as_slice()
        .iter()
        .find(|entry| is_bad_entry(lowered, spread, entry))
        .map(|entry| entry.0)
}

// The adapters of a list.
fn listed(alloc: Global, ids: &[AdapterId]) -> Result<IdSet, AllocError>
    ensures ids { IfOk result (λ set. set ≡ ids.now) }
{
    let mut set = IdSet::new(alloc);
    for id in ids {
        set = set.with(id.0)?;
    }
    Ok(set)
}

/// The adapter of the first entry whose import isn't called as it asks for: by an import adapter, in a way that its kind allows, with as
/// many arguments as it takes and one to spread where the last is spread, and without a result where it is a statement. Want of memory
/// is the only error.
#[tactic(auto, unfolding(crate::specs::Pairs::bad_described))]
pub fn bad_entry(alloc: Global, lowered: &Lowered) -> Result<Option<AdapterId>, AllocError>
    ensures bad { IfOk result (λ bad. bad ≡ pairs.bad_described lowered.now) }
{
    let spread = listed(alloc, lowered.aux.imports_with_variadic.as_slice())?;
    Ok(first_bad(lowered, &spread))
}
