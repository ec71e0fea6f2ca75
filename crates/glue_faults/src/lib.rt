//! What can be wrong with a call, and the words in which conditions are stated.
//!
//! `Fault` is each answer that a call of the generator gives in place of files. `specs/First.antt` and `specs/Clash.antt` have the
//! definitions that conditions are made of: the first answer along a list, and the first entry that clashes with an earlier one.
//! `proofs/Clashes.antt` says that such an entry is found in one pass by the words that entries tell, `proofs/After.antt` and
//! `proofs/Apart.antt` what is known where nothing was found.
//!
//! Stands on `glue_shared`, `wasm_core` and `values`. It knows no condition.
#![tactic(auto)]

mod fault;

pub use fault::{Fault, not_built, where_true};
pub use glue_shared::IdSet;
