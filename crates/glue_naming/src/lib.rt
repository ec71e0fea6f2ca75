//! The names that the glue file gives to what a description declares: drawn in one order, and kept in maps by what they are for.
//!
//! A name that no drawn one may be is bound first (`reserved_names` in `specs/Given.antt`): names of the outside, names that helpers and texts
//! of targets bind, and names that are given by others. Then one name is drawn for each thing in turn (`AreWanted` in `specs/Wanted.antt`):
//! classes as they are described, each with its registry, enums by qualified name, imports, functions by debug name and then by their adapter's
//! id, re-exports by export name, and the objects of namespaces at the root (`AreRoots` of `glue_published`). Of imports, those draw a name that
//! begin with a module's export or a vendor's name (`imports_wanted` in `specs/Imported.antt`): each once, over what the adapters of own imports
//! call, by the import's name and then by the adapter's id (`pair_order` in `specs/Pairs.antt`). A direct import is its name itself
//! (`handed_imports`), and a name of the host goes by itself: a global, and a module's export where imports are left out (`is_outside`). A
//! re-export draws a name for its import, where no own import calls that and no re-export before it names that (`reexported_besides` in
//! `specs/Reexported.antt`). What is one more kind is one more list of `AreWanted`. A name of `inspect` on Node, which comes behind those of
//! re-exports, isn't drawn: no description that is built has any.
//!
//! Promised of `draw_names` (`names`, by the record `AreNames` in `specs/Naming.antt`): the maps have the names that any scope
//! (`glue_scope::Names`) draws for that list; each is an identifier and none that is reserved, and two things have two names (`AreGood` in
//! `specs/Drawing.antt`). And (`named`): each exported function of a description that is checked has a name, its own where that is an
//! identifier, not reserved and not drawn earlier (`kept` of `IsDrawnMap`). `proofs/Functions.antt` says of these names,
//! `proofs/CalledNames.antt` of those that are drawn for what own imports call and re-exports name, `proofs/EnumNames.antt` of those of enums and
//! `proofs/Namespaces.antt` of those of namespaces, that they are distinct identifiers that stand for nothing else. `function_name` and
//! `import_name` read the maps, and `drawn_imports` (`listed`) gives what own imports call, and behind that what re-exports name, with the names
//! that were drawn for it, each once (`specs/Listed.antt`). `pairs_by_import` (`sorted`) gives the pairs in the order in which imports are named,
//! and `own_places_by_name` the places of own imports in the order in which the crate above defines them.
//!
//! The map of names also has those of the exports that give items of the module, which `item_names` draws in a scope of their own.
//!
//! Stands on `glue_check`, `glue_names`, `taken_items`, `glue_published`, `glue_exports`,
//! `glue_scope`, `glue_words`, `glue_shared` and `wasm_core`. It knows no item.
#![tactic(auto)]

mod asked;
mod drawing;
mod given;
mod handed;
mod imported;
mod listed;
mod named;
mod naming;
mod pairs;
mod reexported;

pub use asked::wanted;
pub use drawing::name_all;
pub use handed::handed_imports;
pub use listed::drawn_imports;
pub use named::{Named, Wanted, WantedName, name_in};
pub use naming::{draw_names, function_name, import_name, names_of};
pub use pairs::{own_pairs_by_import, own_places_by_name, pairs_by_import};
