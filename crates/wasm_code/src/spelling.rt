//! Writing bodies and initial expressions (WebAssembly core specification, 5.4.9 and 5.5.13).

ghost use Rattle.std.specs.Prelude.{◌≡◌, ◌++◌, OnOk};
ghost use Rattle.std.specs.List.{flat_map};
ghost use Rattle.wasm_bytes.specs.Spelling.{list_bytes};
ghost use Rattle.wasm_ops.specs.Spelling.{op_bytes};
ghost use Rattle.wasm_code.specs.Locals.{joined_runs};
ghost use Rattle.wasm_code.specs.Numbers.{renumbered_ops, renumbered_body};
ghost use Rattle.wasm_code.specs.Spelling.{run_bytes, expression_bytes, code_bytes};

use crate::body::Body;
use crate::locals::join_runs;
use packed_ops::Ops;
use std::alloc::{AllocError, Global};
use wasm_bytes::{push_number, push_u32, write_framed};
use wasm_ops::{Numbering, write_op};
use wasm_types::ValType;

/// Appends operators with the numbers of what they name, one after another.
fn write_each_op(out: &mut Vec<u8>, numbers: &Numbering, ops: &Ops) -> Result<(), AllocError>
    ensures { OnOk result (out.new.items ≡ out.old.items ++ flat_map op_bytes (renumbered_ops numbers.now ops.now)) }
{
    let mut walk = ops.walk();
    loop {
        match walk.next_spelled() {
            Some(bytes) => out.extend_from_slice(bytes)?,
            None => match walk.next()? {
                Some(op) => write_op(out, numbers, &op)?,
                None => return Ok(()),
            },
        }
    }
}

/// Appends operators with the numbers of what they name, and the one that ends them. The only error is want of memory.
#[tactic(auto, unfolding(crate::specs::Spelling::expression_bytes))]
pub fn write_expression(out: &mut Vec<u8>, numbers: &Numbering, ops: &Ops) -> Result<(), AllocError>
    ensures { OnOk result (out.new.items ≡ out.old.items ++ expression_bytes (renumbered_ops numbers.now ops.now)) }
{
    write_each_op(out, numbers, ops)?;
    out.push(0x0B)?;
    Ok(())
}

/// Appends a run of locals of one type.
#[tactic(auto, unfolding(crate::specs::Spelling::run_bytes))]
fn write_run(out: &mut Vec<u8>, run: (u32, ValType)) -> Result<(), AllocError>
    ensures { OnOk result (out.new.items ≡ out.old.items ++ run_bytes run) }
{
    push_u32(out, run.0)?;
    out.push(run.1.code())?;
    Ok(())
}

fn write_each_run(out: &mut Vec<u8>, runs: &[(u32, ValType)]) -> Result<(), AllocError>
    ensures { OnOk result (out.new.items ≡ out.old.items ++ flat_map run_bytes runs.now) }
{
    for run in runs {
        write_run(out, *run)?;
    }
    Ok(())
}

/// Appends a list of runs of locals, where neighbours of one type are joined.
#[tactic(auto, unfolding(wasm_bytes::specs::Spelling::list_bytes))]
fn write_runs(out: &mut Vec<u8>, alloc: Global, runs: &[(u32, ValType)]) -> Result<(), AllocError>
    ensures { OnOk result (out.new.items ≡ out.old.items ++ list_bytes run_bytes (joined_runs runs.now)) }
{
    let joined = join_runs(alloc, runs)?;
    push_number(out, joined.len() as u64)?;
    write_each_run(out, joined.as_slice())
}

/// Appends a body behind its length, with the numbers of what it names. The only error is want of memory.
#[tactic(auto, unfolding(crate::specs::Spelling::code_bytes, crate::specs::Spelling::body_bytes))]
pub fn write_code(
    out: &mut Vec<u8>,
    alloc: Global,
    numbers: &Numbering,
    body: &Body,
) -> Result<(), AllocError>
    ensures { OnOk result (out.new.items ≡ out.old.items ++ code_bytes (renumbered_body numbers.now body.now)) }
{
    let mut content = Vec::new(alloc);
    write_runs(&mut content, alloc, body.locals.as_slice())?;
    write_expression(&mut content, numbers, &body.ops)?;
    write_framed(out, content.as_slice())
}
