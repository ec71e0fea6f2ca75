//! Runs of locals of one type (WebAssembly core specification, 5.5.13).

ghost use Rattle.std.specs.Prelude.{◌≡◌, ◌+◌, ◌++◌, ◌∷◌, IfOk};
ghost use Rattle.std.specs.List.{sum_by};
ghost use Rattle.wasm_bytes.specs.Gives.{Gives};
ghost use Rattle.wasm_code.specs.Locals.{checked_total, run, runs, joined_pair, joined_runs, joined_behind, Runs};

use std::alloc::{AllocError, Global};
use values::Seq;
use wasm_bytes::{Counts, Entry, ReadFault, Reader};
use wasm_types::ValType;

/// How many locals a body can have, parameters among them.
const MOST: u64 = 4_294_967_295;

/// How many stand before and in the run, where a body can have so many.
fn checked_total(before: u64, count: u32) -> Option<u64>
    ensures { result ≡ checked_total before count }
{
    match before.checked_add(count as u64) {
        Some(total) if total <= MOST => Some(total),
        _ => None,
    }
}

/// A run behind `total` parameters and locals, which then counts the run too.
#[tactic(auto, unfolding(crate::specs::Locals::run))]
fn read_run(
    reader: &mut Reader<'_>,
    alloc: Global,
    counts: &Counts,
    total: &mut u64,
) -> Result<(u32, ValType), ReadFault>
    ensures value { Gives result reader.new (run total.old reader.old) }
    ensures sum { IfOk result (λ r. total.new ≡ total.old + r.0) }
{
    let place = reader.place();
    let count = reader.number32()?;
    let Some(sum) = checked_total(*total, count) else {
        return Err(ReadFault::Parse { place });
    };
    let ty = ValType::read(reader, alloc, counts)?;
    *total = sum;
    Ok((count, ty))
}

/// So many runs behind `total` parameters and locals, which then counts the runs too. An error is the place of the first fault, or want
/// of memory.
pub fn read_runs(
    count: u32,
    reader: &mut Reader<'_>,
    alloc: Global,
    counts: &Counts,
    total: &mut u64,
) -> Result<Seq<(u32, ValType)>, ReadFault>
    ensures value { Gives result reader.new (runs count total.old reader.old) }
    ensures sum { IfOk result (λ rs. total.new ≡ total.old + sum_by (λ r. r.0) rs) }
{
    let mut items = Seq::new(alloc);
    for _ in 0..count {
        items.push(read_run(reader, alloc, counts, total)?)?;
    }
    Ok(items)
}

/// The run that stands for two, where one can.
fn joined_pair(first: (u32, ValType), second: (u32, ValType)) -> Option<(u32, ValType)>
    ensures { result ≡ joined_pair first second }
{
    if first.1.code() != second.1.code() {
        return None;
    }
    match first.0.checked_add(second.0) {
        Some(sum) => Some((sum, first.1)),
        None => None,
    }
}

/// Puts a run behind the runs that are done and the last one before it. Answers the run that is then the last.
fn add_run(
    done: &mut Seq<(u32, ValType)>,
    last: Option<(u32, ValType)>,
    run: (u32, ValType),
) -> Result<Option<(u32, ValType)>, AllocError>
    ensures { IfOk result (λ next. (rs : Runs) → done.new ++ joined_behind next rs ≡ done.old ++ joined_behind last (run ∷ rs)) }
{
    if run.0 == 0 {
        return Ok(last);
    }
    let before = match last {
        None => return Ok(Some(run)),
        Some(before) => before,
    };
    match joined_pair(before, run) {
        Some(both) => Ok(Some(both)),
        None => {
            done.push(before)?;
            Ok(Some(run))
        }
    }
}

/// The runs that have locals, where neighbours of one type are joined. The only error is want of memory.
pub fn join_runs(alloc: Global, runs: &[(u32, ValType)]) -> Result<Seq<(u32, ValType)>, AllocError>
    ensures { IfOk result (λ rs. rs ≡ joined_runs runs.now) }
{
    let mut done = Seq::new(alloc);
    let mut last = None;
    for run in runs {
        last = add_run(&mut done, last, *run)?;
    }
    match last {
        None => Ok(done),
        Some(run) => {
            done.push(run)?;
            Ok(done)
        }
    }
}
