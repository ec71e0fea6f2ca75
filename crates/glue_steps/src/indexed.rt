//! A module and its description, with an index of what is said of import adapters, and of the exports of those of closures.
ghost use Rattle.std.specs.Prelude.{◌≡◌, IfOk};
ghost use Rattle.std.specs.Option.{option_copied};
ghost use Rattle.glue_shared.specs.Names.{has_number};
ghost use Rattle.glue_steps.specs.Resolving as spec;

use crate::callbacks::Callbacks;
use glue_shared::{AdapterId, AuxImport, DescribedImports, IdSet, Lowered};
use std::alloc::{AllocError, Global};
use std::marker::Model;
use wasm_core::ExportId;

/// A module with its description, and an index of what it says of import adapters, and of the exports of those of closures. A contract sees
/// the module with its description.
#[derive(Drop)]
pub struct Indexed<'a> {
    lowered: &'a Lowered,
    imports: DescribedImports<'a>,
    spread: IdSet,
    caught: IdSet,
    callbacks: Callbacks<'a>,
}

impl<'a> Model for Indexed<'a> {
    ghost use Rattle.std.specs.Prelude.{◌≡◌};
    ghost use Rattle.std.specs.Coded.{codes};
    ghost use Rattle.glue_shared.specs.contracts.adapter.AdapterType as adapter_type;
    ghost use Rattle.glue_shared.specs.declared.description.Lowered.{Lowered};

    ghost Value = { Lowered };

    ghost coded = { Prim.hlevel (codes, adapter_type.the_row.coded) };

    ghost view = { λ indexed. indexed.lowered.now };

    ghost invariant = { λ indexed. (indexed.imports ≡ indexed.lowered.now.aux.imports)
        × (indexed.spread ≡ indexed.lowered.now.aux.imports_with_variadic)
        × (indexed.caught ≡ indexed.lowered.now.aux.imports_with_catch)
        × (indexed.callbacks ≡ indexed.lowered.now.wit.exports) };
}

// The ids of a list.
fn id_set(alloc: Global, ids: &[AdapterId]) -> Result<IdSet, AllocError>
    ensures same { IfOk result (λ set. set ≡ ids.now) }
{
    let mut set = IdSet::new(alloc);
    for id in ids {
        set = set.with(id.0)?;
    }
    Ok(set)
}

impl<'a> Indexed<'a> {
    /// A module with its description, with their index. Want of memory is the only error.
    pub fn new(alloc: Global, lowered: &'a Lowered) -> Result<Indexed<'a>, AllocError>
        ensures same { IfOk result (λ indexed. indexed ≡ lowered.now) }
    {
        let imports = DescribedImports::new(alloc, lowered.aux.imports.as_slice())?;
        let spread = id_set(alloc, lowered.aux.imports_with_variadic.as_slice())?;
        let caught = id_set(alloc, lowered.aux.imports_with_catch.as_slice())?;
        let callbacks = Callbacks::new(alloc, lowered.wit.exports.as_slice())?;
        Ok(Indexed {
            lowered,
            imports,
            spread,
            caught,
            callbacks,
        })
    }

    /// The module with its description.
    pub fn lowered(&self) -> &Lowered
        ensures same { result.now ≡ self.now }
    {
        self.lowered
    }

    /// What the description says of an import adapter.
    pub fn described_import(&self, id: AdapterId) -> Option<&AuxImport>
        ensures found { option_copied result ≡ spec.described_import self.now.aux.imports id }
    {
        self.imports.get(id)
    }

    /// Whether the last argument of an import adapter is spread.
    pub fn is_spread(&self, id: AdapterId) -> bool
        ensures test { result ≡ spec.is_spread self.now id }
    {
        self.spread.has(id.0)
    }

    /// Whether the description lists an adapter among those whose throws are caught.
    pub fn is_listed_caught(&self, id: AdapterId) -> bool
        ensures test { result ≡ has_number id self.now.aux.imports_with_catch }
    {
        self.caught.has(id.0)
    }

    /// The export after which the function of a closure's adapter is named.
    pub fn callback(&self, id: AdapterId) -> Option<ExportId>
        ensures found { result ≡ spec.callback_of self.now.wit.exports id }
    {
        self.callbacks.get(id)
    }
}
