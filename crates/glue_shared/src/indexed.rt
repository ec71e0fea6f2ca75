//! Descriptions with an index of the ids that they name.
ghost use Rattle.std.specs.Prelude.{◌≡◌, IfOk};
ghost use Rattle.std.specs.Option.{option_copied};
ghost use Rattle.glue_shared.specs.Indexed.{LeadsTo};
ghost use Rattle.glue_shared.specs.Names.{entry_of, has_number};

use crate::adapter::AdapterId;
use crate::aux::WasmBindgenAux;
use crate::ids::IdSet;
use crate::import::AuxImport;
use std::alloc::{AllocError, Global};
use std::marker::Model;
use values::Map;

/// The described imports, with the place of the first entry of each adapter. A contract sees the entries.
#[derive(Drop)]
pub struct DescribedImports<'a> {
    entries: &'a [(AdapterId, AuxImport)],
    places: Map<u32, usize>,
}

impl<'a> Model for DescribedImports<'a> {
    ghost use Rattle.std.specs.Prelude.{ℕ, List};
    ghost use Rattle.glue_shared.specs.declared.import.AuxImport.{AuxImport};
    ghost use Rattle.glue_shared.specs.Indexed.{LeadsTo};

    ghost Value = { List (ℕ × AuxImport) };

    ghost view = { λ imports. imports.entries.now };

    ghost invariant = { λ imports. LeadsTo imports.places imports.entries.now imports.entries.now };
}

// The place of the first entry of each id. From the last entry on, so that earlier ones stand in place of later ones.
fn first_places(
    alloc: Global,
    entries: &[(AdapterId, AuxImport)],
) -> Result<Map<u32, usize>, AllocError>
    ensures index { IfOk result (λ places. LeadsTo places entries.now entries.now) }
{
    let mut places = Map::new(alloc);
    let mut place = entries.len();
    while place > 0 {
        place -= 1;
        let id = entries[place].0;
        places.insert(id.0, place)?;
    }
    Ok(places)
}

impl<'a> DescribedImports<'a> {
    /// These entries, with their index. Want of memory is the only error.
    pub fn new(
        alloc: Global,
        entries: &'a [(AdapterId, AuxImport)],
    ) -> Result<DescribedImports<'a>, AllocError>
        ensures same { IfOk result (λ imports. imports ≡ entries.now) }
    {
        let places = first_places(alloc, entries)?;
        Ok(DescribedImports { entries, places })
    }

    /// What is described of an import adapter: the first entry of its id.
    pub fn get(&self, id: AdapterId) -> Option<&AuxImport>
        ensures found { option_copied result ≡ entry_of id self.now }
    {
        let place = self.places.get(&id.0)?;
        let entry = self.entries.get(*place)?;
        Some(&entry.1)
    }
}

// The ids of a list.
fn id_set(alloc: Global, ids: &[AdapterId]) -> Result<IdSet, AllocError>
    ensures same { IfOk result (λ set. set ≡ ids.now) }
{
    let mut set = IdSet::new(alloc);
    for id in ids {
        set = set.with(id.0)?;
    }
    Ok(set)
}

/// What is said beside the adapters, with an index of what is said of import adapters. A contract sees what is said.
#[derive(Drop)]
pub struct IndexedAux<'a> {
    aux: &'a WasmBindgenAux,
    imports: DescribedImports<'a>,
    variadic: IdSet,
    caught: IdSet,
}

impl<'a> Model for IndexedAux<'a> {
    ghost use Rattle.std.specs.Coded.{codes};
    ghost use Rattle.glue_shared.specs.contracts.adapter.AdapterType as adapter_type;
    ghost use Rattle.glue_shared.specs.declared.aux.WasmBindgenAux.{WasmBindgenAux};
    ghost use Rattle.glue_shared.specs.Indexed.{IsIndexOf};

    ghost Value = { WasmBindgenAux };

    ghost coded = { Prim.hlevel (codes, adapter_type.the_row.coded) };

    ghost view = { λ indexed. indexed.aux.now };

    ghost invariant = { λ indexed. IsIndexOf indexed.aux.now indexed.imports indexed.variadic indexed.caught };
}

impl<'a> IndexedAux<'a> {
    /// What is said, with its index. Want of memory is the only error.
    pub fn new(alloc: Global, aux: &'a WasmBindgenAux) -> Result<IndexedAux<'a>, AllocError>
        ensures same { IfOk result (λ indexed. indexed ≡ aux.now) }
    {
        let imports = DescribedImports::new(alloc, aux.imports.as_slice())?;
        let variadic = id_set(alloc, aux.imports_with_variadic.as_slice())?;
        let caught = id_set(alloc, aux.imports_with_catch.as_slice())?;
        Ok(IndexedAux {
            aux,
            imports,
            variadic,
            caught,
        })
    }

    /// Whether exceptions are handled as before the standard had them.
    pub(crate) fn is_legacy(&self) -> bool
        ensures test { result ≡ self.now.legacy_exception_handling }
    {
        self.aux.legacy_exception_handling
    }

    /// What is described of an import adapter.
    pub(crate) fn import(&self, id: AdapterId) -> Option<&AuxImport>
        ensures found { option_copied result ≡ entry_of id self.now.imports }
    {
        self.imports.get(id)
    }

    /// Whether the last argument of an adapter is spread.
    pub(crate) fn is_variadic(&self, id: AdapterId) -> bool
        ensures test { result ≡ has_number id self.now.imports_with_variadic }
    {
        self.variadic.has(id.0)
    }

    /// Whether what an adapter throws is caught.
    pub(crate) fn is_caught(&self, id: AdapterId) -> bool
        ensures test { result ≡ has_number id self.now.imports_with_catch }
    {
        self.caught.has(id.0)
    }
}
