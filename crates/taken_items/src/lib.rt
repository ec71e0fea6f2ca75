//! The items of the module that the glue file takes, and the names of the exports that give them.
//!
//! The adapters that become functions ask for items of the module: memories, tables and functions that own imports give, that instructions name,
//! or that helpers of references and of closures go by; and where what imports throw is caught, those by which it is handed to the module
//! (`specs/Asked.antt`). `item_names` (`named`) gives each of them once, with the name of the export that gives it: the first of the module, or a
//! new one, made of the item's own name. `added_exports` (`added`) are the exports that have to be added for that, and `fresh` says that each of
//! their names is new (`specs/ItemNames.antt`). `item_map` (`map`) has the names by their items. Nothing but want of memory fails.
//!
//! Stands on `printed_adapters`, `glue_names`, `glue_steps`, `glue_imports`, `glue_scope`, `glue_words`, `glue_shared` and `wasm_core`.
#![tactic(auto)]

mod asked;
mod named;

pub use named::{added_exports, item_map, item_names};
