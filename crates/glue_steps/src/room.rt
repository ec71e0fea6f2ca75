//! Room for results, which code takes on the stack of the module.
ghost use Rattle.std.specs.Prelude.{◌≡◌};
ghost use Rattle.glue_steps.specs.Room as spec;

use glue_shared::{Instruction, Lowered};

/// Whether an instruction takes room.
pub fn is_room(instruction: &Instruction) -> bool
    ensures test { result ≡ spec.is_room instruction.now }
{
    matches!(instruction, Instruction::Retptr(_))
}

/// Whether one of these does.
pub fn makes_room(code: &[Instruction]) -> bool
    ensures test { result ≡ spec.makes_room code.now }
{
    code.iter().any(|instruction| is_room(instruction))
}

/// Whether a global of the module is there that tells where its stack ends.
pub fn has_stack(lowered: &Lowered) -> bool
    ensures test { result ≡ spec.has_stack lowered.now }
{
    let Some(global) = lowered.aux.stack_pointer else {
        return false;
    };
    matches!(
        lowered.module.globals().get(global.0 as usize),
        Some(Some(_))
    )
}
