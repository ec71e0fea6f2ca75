//! Types (WebAssembly core specification, 2.3).
ghost use Rattle.std.specs.Prelude.{◌≡◌};
ghost use Rattle.wasm_types.specs.Types.{code_of, is_reference, val_type_of};

use values::Seq;

/// The type of a value: numbers, vectors and references.
#[derive(Clone, Copy, Debug, PartialEq, Eq)]
pub enum ValType {
    I32,
    I64,
    F32,
    F64,
    V128,
    FuncRef,
    ExternRef,
    ExnRef,
}

impl ValType {
    /// The byte that stands for it (WebAssembly core specification, 5.3).
    pub fn code(self) -> u8
        ensures { result ≡ code_of self }
    {
        match self {
            ValType::I32 => 0x7F,
            ValType::I64 => 0x7E,
            ValType::F32 => 0x7D,
            ValType::F64 => 0x7C,
            ValType::V128 => 0x7B,
            ValType::FuncRef => 0x70,
            ValType::ExternRef => 0x6F,
            ValType::ExnRef => 0x69,
        }
    }

    /// Whether its values are references: functions, external values or exceptions.
    pub fn is_reference(self) -> bool
        ensures { result ≡ is_reference self }
    {
        matches!(
            self,
            ValType::FuncRef | ValType::ExternRef | ValType::ExnRef
        )
    }

    /// The type that a byte stands for, where it stands for one.
    pub fn from_code(code: u8) -> Option<ValType>
        ensures { result ≡ val_type_of code }
    {
        match code {
            0x7F => Some(ValType::I32),
            0x7E => Some(ValType::I64),
            0x7D => Some(ValType::F32),
            0x7C => Some(ValType::F64),
            0x7B => Some(ValType::V128),
            0x70 => Some(ValType::FuncRef),
            0x6F => Some(ValType::ExternRef),
            0x69 => Some(ValType::ExnRef),
            _ => None,
        }
    }
}

/// The type of a function: what it takes and what it gives.
#[derive(Debug, PartialEq, Eq, Drop)]
pub struct FuncType {
    pub params: Seq<ValType>,
    pub results: Seq<ValType>,
}

/// The size of a memory in pages of 65,536 bytes, or of a table in entries.
#[derive(Clone, Copy, Debug, PartialEq, Eq)]
pub struct Limits {
    pub min: u64,
    pub max: Option<u64>,
    /// Whether threads share it.
    pub shared: bool,
    /// Whether its addresses have 64 bits.
    pub wide: bool,
}
