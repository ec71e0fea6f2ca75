//! Reading function bodies and initial expressions (WebAssembly core specification, 5.4.9 and 5.5.13).

ghost use Rattle.std.specs.Prelude.{◌≡◌, IfOk, IfErr, OnOk};
ghost use Rattle.wasm_bytes.specs.Gives.{Fails, Gives, GivesBoth};
ghost use Rattle.wasm_bytes.specs.Reading.{entries};
ghost use Rattle.wasm_code.specs.Code.{labels_after, op, next_op, ReadsOn, expression, next_initial, initial, body, code_entry};

use crate::body::Body;
use crate::locals::{join_runs, read_runs};
use packed_ops::Ops;
use std::alloc::{AllocError, Global};
use values::Seq;
use wasm_bytes::{Counts, ReadFault, Reader, read_index};
use wasm_ops::{Op, Shape, initial_shape, named_blocks, read_operands, shape_within};

/// The open blocks after an operator, the body first: `true` for an `if` that had no `else` yet.
fn update_labels(labels: &mut Vec<bool>, op: &Op) -> Result<(), AllocError>
    ensures { OnOk result (labels.new.items ≡ labels_after op.now labels.old.items) }
{
    match op {
        Op::Plain(0x0B) | Op::Label(0x18, _) => {
            let _ = labels.pop();
        }
        Op::Plain(0x05) => {
            let _ = labels.pop();
            labels.push(false)?;
        }
        Op::Block(code, _) => labels.push(*code == 0x04)?,
        Op::TryTable(_, _) => labels.push(false)?,
        _ => {}
    }
    Ok(())
}

/// An operator within these open blocks.
#[tactic(auto, unfolding(crate::specs::Code::op))]
fn read_op(
    reader: &mut Reader<'_>,
    alloc: Global,
    counts: &Counts,
    labels: &[bool],
) -> Result<Op, ReadFault>
    ensures { Gives result reader.new (op counts.now labels.now reader.old) }
{
    let place = reader.place();
    let code = reader.byte()?;
    match shape_within(labels, code) {
        Some(shape) => {
            let blocks = named_blocks(labels, code);
            read_operands(reader, alloc, counts, blocks, code, shape)
        }
        None => Err(ReadFault::Parse { place }),
    }
}

/// The next operator, none where it closes the last block.
#[tactic(auto, unfolding(crate::specs::Code::next_op))]
fn read_next_op(
    reader: &mut Reader<'_>,
    alloc: Global,
    counts: &Counts,
    labels: &mut Vec<bool>,
) -> Result<Option<Op>, ReadFault>
    ensures { GivesBoth result labels.new.items reader.new (next_op counts.now labels.old.items reader.old) }
{
    let op = read_op(reader, alloc, counts, labels)?;
    update_labels(labels, &op)?;
    Ok((!labels.is_empty()).then_some(op))
}

/// Reads an operator that leaves the open blocks as they are, one without operands or of a local, and puts it behind the others. Answers
/// whether it did; nothing is read where it didn't.
#[tactic(auto, unfolding(crate::specs::Code::next_op, crate::specs::Code::op))]
fn read_on(
    ops: &mut Ops,
    scratch: &mut Vec<u8>,
    reader: &mut Reader<'_>,
    counts: &Counts,
    labels: &[bool],
) -> Result<bool, ReadFault>
    ensures ok { IfOk result (λ on. ReadsOn on counts.now labels.now reader.old reader.new ops.old ops.new) }
    ensures err { IfErr result (λ e. Fails e (next_op counts.now labels.now reader.old)) }
{
    if labels.is_empty() {
        return Ok(false);
    }
    let Ok(code) = reader.peek() else {
        return Ok(false);
    };
    match shape_within(labels, code) {
        Some(Shape::Plain) if code != 0x05 && code != 0x0B => {
            reader.byte()?;
            ops.push(scratch, &Op::Plain(code))?;
        }
        Some(Shape::Local) => {
            reader.byte()?;
            let local = read_index(reader, counts.locals)?;
            ops.push(scratch, &Op::Local(code, local))?;
        }
        _ => return Ok(false),
    }
    Ok(true)
}

/// The operators of a body, up to the one that closes it.
fn read_expression(
    reader: &mut Reader<'_>,
    alloc: Global,
    counts: &Counts,
) -> Result<Ops, ReadFault>
    ensures { Gives result reader.new (expression counts.now reader.old) }
{
    let mut labels = vec![in alloc; false]?;
    let mut scratch = Vec::new(alloc);
    let mut ops = Ops::new(alloc);
    for _ in 0..reader.len() {
        if read_on(&mut ops, &mut scratch, reader, counts, &labels)? {
            continue;
        }
        match read_next_op(reader, alloc, counts, &mut labels)? {
            None => return Ok(ops),
            Some(op) => ops.push(&mut scratch, &op)?,
        }
    }
    Err(ReadFault::Parse {
        place: reader.end(),
    })
}

/// The next operator of an initial expression, none where it ends it.
#[tactic(auto, unfolding(crate::specs::Code::next_initial))]
fn read_next_initial(
    reader: &mut Reader<'_>,
    alloc: Global,
    counts: &Counts,
) -> Result<Option<Op>, ReadFault>
    ensures { GivesBoth result tt reader.new (next_initial counts.now tt reader.old) }
{
    let place = reader.place();
    let code = reader.byte()?;
    if code == 0x0B {
        return Ok(None);
    }
    match initial_shape(code) {
        Some(shape) => Ok(Some(read_operands(reader, alloc, counts, 0, code, shape)?)),
        None => Err(ReadFault::Parse { place }),
    }
}

/// An initial expression, without the 0B that ends it. Its operators are packed in `scratch`, whose old content is dropped.
fn read_initial_by(
    scratch: &mut Vec<u8>,
    reader: &mut Reader<'_>,
    alloc: Global,
    counts: &Counts,
) -> Result<Ops, ReadFault>
    ensures { Gives result reader.new (initial counts.now reader.old) }
{
    let mut ops = Ops::new(alloc);
    for _ in 0..reader.len() {
        match read_next_initial(reader, alloc, counts)? {
            None => return Ok(ops),
            Some(op) => ops.push(scratch, &op)?,
        }
    }
    Err(ReadFault::Parse {
        place: reader.end(),
    })
}

/// An initial expression, without the 0B that ends it. An error is the place of the first fault, or want of memory.
pub fn read_initial(
    reader: &mut Reader<'_>,
    alloc: Global,
    counts: &Counts,
) -> Result<Ops, ReadFault>
    ensures { Gives result reader.new (initial counts.now reader.old) }
{
    let mut scratch = Vec::new(alloc);
    read_initial_by(&mut scratch, reader, alloc, counts)
}

/// Initial expressions, so many. An error is the place of the first fault, or want of memory.
pub fn read_initials(
    count: u32,
    reader: &mut Reader<'_>,
    alloc: Global,
    counts: &Counts,
) -> Result<Seq<Ops>, ReadFault>
    ensures { Gives result reader.new (entries count (initial counts.now) reader.old) }
{
    let mut scratch = Vec::new(alloc);
    let mut expressions = Seq::new(alloc);
    for _ in 0..count {
        expressions.push(read_initial_by(&mut scratch, reader, alloc, counts)?)?;
    }
    Ok(expressions)
}

/// The runs of locals and the operators.
#[tactic(auto, unfolding(crate::specs::Code::body))]
fn read_body(
    reader: &mut Reader<'_>,
    alloc: Global,
    counts: &Counts,
    params: u64,
) -> Result<Body, ReadFault>
    ensures { Gives result reader.new (body counts.now params reader.old) }
{
    let count = reader.number32()?;
    let mut total = params;
    let runs = read_runs(count, reader, alloc, counts, &mut total)?;
    let counts = Counts {
        locals: total,
        ..*counts
    };
    let locals = join_runs(alloc, runs.as_slice())?;
    let mut ops = read_expression(reader, alloc, &counts)?;
    ops.shrink_to_fit();
    Ok(Body { locals, ops })
}

/// A body behind its length, of a function with so many parameters. An error is the place of the first fault, or want of memory.
#[tactic(auto, unfolding(crate::specs::Code::code_entry))]
pub fn read_code_entry(
    reader: &mut Reader<'_>,
    alloc: Global,
    counts: &Counts,
    params: u64,
) -> Result<Body, ReadFault>
    ensures { Gives result reader.new (code_entry counts.now params reader.old) }
{
    let len = reader.number32()? as usize;
    let mut inside = reader.part(len);
    let body = read_body(&mut inside, alloc, counts, params)?;
    inside.finish().and(reader.frame(len)).and(Ok(body))
}
