//! The stack of operands, and the names to come.
ghost use Rattle.std.specs.Prelude.{◌≡◌, ◌∷◌, [], OnOk, IfOk, map, reverse};
ghost use Rattle.glue_operands.specs.Plainly.{plain_operand};
ghost use Rattle.glue_operands.specs.Spelling.{Missing};
ghost use Rattle.glue_binding.specs.Body.{newest_first, stack_of};
ghost use Rattle.glue_binding.specs.Spelling as spell;
ghost use Rattle.glue_binding.specs.Spelling.{first, later};
ghost use Rattle.glue_steps.specs.Stack as s;

use glue_operands::Operand;
use std::alloc::{AllocError, Global};
use values::{Seq, Text};

/// The newest operand, or the one that stands for a lacking one.
#[tactic(auto, unfolding(crate::specs::Body::stack_of))]
pub fn pop(stack: &mut Seq<Operand>) -> Operand
    ensures top { plain_operand result ≡ s.top Missing (stack_of stack.old) }
    ensures below { stack_of stack.new ≡ s.below (stack_of stack.old) }
{
    match stack.pop() {
        Some(operand) => operand,
        None => Operand::Missing,
    }
}

#[tactic(auto, unfolding(crate::specs::Body::stack_of))]
pub fn push(stack: &mut Seq<Operand>, operand: Operand) -> Result<(), AllocError>
    ensures pushed { OnOk result (stack_of stack.new ≡ plain_operand operand ∷ stack_of stack.old) }
{
    stack.push(operand)?;
    Ok(())
}

/// The n newest operands, the oldest of them first.
pub fn pop_operands(
    alloc: Global,
    stack: &mut Seq<Operand>,
    n: usize,
) -> Result<Vec<Operand>, AllocError>
    ensures operands { IfOk result (λ taken. map plain_operand taken.items
        ≡ s.operands Missing n (stack_of stack.old) []) }
    ensures left { OnOk result (stack_of stack.new ≡ s.without n (stack_of stack.old)) }
{
    let mut taken = Vec::new(alloc);
    for _ in 0..n {
        taken.push(pop(stack))?;
    }
    taken.reverse();
    Ok(taken)
}

/// The next name, or the empty one where none is left.
#[tactic(auto, unfolding(crate::specs::Body::newest_first))]
pub fn next_name(alloc: Global, coming: &mut Seq<Text>) -> Text
    ensures name { result ≡ first (newest_first coming.old) }
    ensures left { newest_first coming.new ≡ later (newest_first coming.old) }
{
    match coming.pop() {
        Some(name) => name,
        None => Text::new(String::new(alloc)),
    }
}

/// The next names, so many, the empty one for each that is lacking.
pub fn next_names(
    alloc: Global,
    coming: &mut Seq<Text>,
    count: usize,
) -> Result<Seq<Text>, AllocError>
    ensures names { IfOk result (λ names. names ≡ spell.next_names count (newest_first coming.old)) }
    ensures left { OnOk result (newest_first coming.new ≡ s.without count (newest_first coming.old)) }
{
    let mut names = Seq::new(alloc);
    for _ in 0..count {
        names.push(next_name(alloc, coming))?;
    }
    Ok(names)
}
