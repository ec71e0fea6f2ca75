//! Writing types (WebAssembly core specification, 5.3).

ghost use Rattle.wasm_types.specs.Spelling.{val_type_bytes, func_type_bytes};

use crate::types::{FuncType, ValType};
use std::alloc::AllocError;
use wasm_bytes::{Spell, write_list};

impl Spell for ValType {
    ghost spelled = { val_type_bytes };

    #[tactic(auto, unfolding(crate::specs::Spelling::val_type_bytes))]
    fn write(&self, out: &mut Vec<u8>) -> Result<(), AllocError> {
        out.push(self.code())?;
        Ok(())
    }
}

impl Spell for FuncType {
    ghost spelled = { func_type_bytes };

    #[tactic(auto, unfolding(crate::specs::Spelling::func_type_bytes))]
    fn write(&self, out: &mut Vec<u8>) -> Result<(), AllocError> {
        out.push(0x60)?;
        write_list(self.params.as_slice(), out)?;
        write_list(self.results.as_slice(), out)
    }
}
