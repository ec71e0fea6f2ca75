//! Adding a function.

ghost use Rattle.std.specs.Prelude.{◌≡◌, ◌≤◌, ◌++◌, ◌∷◌, [], Some, Err, alloc_error, length, IfOk, OnOk, OnErr};
ghost use Rattle.std.specs.List.{position_from};
ghost use Rattle.wasm_core.specs.Edits.{IsFull, IsNewType, most_places, is_alike, is_entry_alike, new_func, with_func};

use crate::module::Module;
use crate::types::Func;
use std::alloc::{AllocError, Global};
use values::Text;
use wasm_code::Body;
use wasm_types::{FuncId, FuncType, TypeId};

impl Module {
    /// Adds a function with this name and body, the last one. Its type is the first that is alike; without one the type is
    /// added last. Without memory nothing is changed; there is none where 4,294,967,295 places of functions are taken,
    /// or as many of types and the type is to be added.
    #[tactic(auto, unfolding(crate::specs::Edits::with_func))]
    pub fn add_func(
        &mut self,
        alloc: Global,
        ty: FuncType,
        name: &str,
        body: Body,
    ) -> Result<FuncId, AllocError>
        ensures place { IfOk result (λ id. id.0 ≡ length self.old.funcs) }
        ensures ok { OnOk result (self.new ≡ with_func ty name.now body self.old) }
        ensures err { OnErr result (self.new ≡ self.old) }
        ensures full { IsFull self.old.funcs → result ≡ Err alloc_error }
        ensures full_types { IsFull self.old.types → IsNewType ty self.old → result ≡ Err alloc_error }
    {
        let name = Text::from_str(alloc, name)?;
        match type_place(&self.types, &ty) {
            Some(place) => self.push_func(place, name, body),
            None => self.push_func_and_type(ty, name, body),
        }
    }

    /// Adds a function of the type at a place.
    fn push_func(&mut self, ty: usize, name: Text, body: Body) -> Result<FuncId, AllocError>
        ensures place { IfOk result (λ id. id.0 ≡ length self.old.funcs) }
        ensures ok { OnOk result (self.new ≡ record self.old { funcs = self.old.funcs ++ Some (new_func ty name body) ∷ [] }) }
        ensures err { OnErr result (self.new ≡ self.old) }
        ensures full { IsFull self.old.funcs → result ≡ Err alloc_error }
        ensures far_type { most_places ≤ ty → result ≡ Err alloc_error }
    {
        let place = self.funcs.len();
        if place >= u32::MAX as usize || ty >= u32::MAX as usize {
            return Err(AllocError);
        }
        self.funcs.push(Some(Func {
            ty: TypeId(ty as u32),
            name: Some(name),
            import: None,
            body: Some(body),
        }))?;
        Ok(FuncId(place as u32))
    }

    /// Adds a function and its type.
    fn push_func_and_type(
        &mut self,
        ty: FuncType,
        name: Text,
        body: Body,
    ) -> Result<FuncId, AllocError>
        ensures place { IfOk result (λ id. id.0 ≡ length self.old.funcs) }
        ensures ok { OnOk result (self.new ≡ record self.old { types = self.old.types ++ Some ty ∷ []; funcs = self.old.funcs ++ Some (new_func (length self.old.types) name body) ∷ [] }) }
        ensures err { OnErr result (self.new ≡ self.old) }
        ensures full { IsFull self.old.funcs → result ≡ Err alloc_error }
        ensures full_types { IsFull self.old.types → result ≡ Err alloc_error }
    {
        let before = self.funcs.len();
        let place = self.types.len();
        let id = self.push_func(place, name, body)?;
        match self.types.push(Some(ty)) {
            Ok(()) => Ok(id),
            Err(_) => {
                self.funcs.truncate(before);
                Err(AllocError)
            }
        }
    }
}

/// The place of the first type that is alike.
fn type_place(types: &[Option<FuncType>], ty: &FuncType) -> Option<usize>
    ensures { result ≡ position_from (is_entry_alike ty.now) 0 types.now }
{
    for (place, entry) in types.iter().enumerate() {
        if is_entry_alike(entry, ty) {
            return Some(place);
        }
    }
    None
}

/// Whether there is a type, and it is alike.
fn is_entry_alike(entry: &Option<FuncType>, ty: &FuncType) -> bool
    ensures { result ≡ is_entry_alike ty.now entry.now }
{
    match entry {
        Some(found) => is_alike(found, ty),
        None => false,
    }
}

/// Whether two types take and give the same.
fn is_alike(a: &FuncType, b: &FuncType) -> bool
    ensures { result ≡ is_alike a.now b.now }
{
    a == b
}
