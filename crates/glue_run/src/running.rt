//! The top call.
ghost use Rattle.std.specs.Prelude.{◌↔◌, ◌≡◌, ◌≢◌, ◌≤◌, ◌⊎◌, ℕ, List, length, Ok, Err, Some, None, map, string_bytes, IsTrue, IsSome, IfOk, IfErr};
ghost use Rattle.std.specs.Io.KnownBytes.{Keeps};
ghost use Rattle.cli_support.specs.Emission.{too_large};
ghost use Rattle.cli_support.specs.Count.{Rose};
ghost use Rattle.cli_support.specs.Listing.{listing};
ghost use Rattle.cli_support.specs.Taking.{IsWhole, TakesAtMost, TakesMoreThan};
ghost use Rattle.glue_run.specs.Headline.{IsOutputOf};
ghost use Rattle.glue_run.specs.Outcome as spec;
ghost use Rattle.glue_run.specs.Outcome.{Cause};
ghost use Rattle.glue_run.specs.Running.{AreRead, IsDone, IsPartly, EndsIn};

use cli_support::{
    Bindgen, EmitFault, Fault, JsonLowering, Output, PlannedFile, SetFault, Sink, Source, Stop,
    WriteFault, read_whole, write_files,
};
use std::alloc::{AllocError, Global};

/// The most bytes that are read.
pub const LIMIT: usize = 268_435_456;

/// How many bytes are asked for in one read.
pub const PIECE: usize = 65_536;

/// How a run ended: its status, and the output.
///
/// An output is there with the status 0. With 1 and 4 it is there exactly where the generator refused nothing: also where only a
/// section of its module is too large to be written. With 5 it is there where it was made; with 2, 3 and 6 it never is.
#[derive(Drop)]
pub struct Ran {
    pub status: u8,
    pub output: Option<Output>,
}

// The line of a fault.
fn fault_line_of(alloc: Global, fault: &Fault) -> Result<String, AllocError>
    ensures line { IfOk result (λ line. string_bytes line ≡ spec.fault_line (spec.Refused fault.now)) }
{
    let mut line = String::from_str(alloc, "fault ")?;
    line.push_str(fault.name())?;
    line.push_str("\n")?;
    Ok(line)
}

// The line of a module with a section that is too large.
fn oversized_line() -> &'static str
    ensures line { result.now ≡ spec.fault_line spec.Oversized }
{
    "fault TooLarge\n"
}

// Writes a fault's line.
fn tell<O: Sink>(line: &str, output: &mut O) -> u8
    ensures wrote { spec.Wrote 1 line.now result (O.taken output.old) (O.taken output.new) (O.faults output.old) (O.faults output.new) }
{
    match output.write_all(line.as_bytes()) {
        Ok(()) => 1,
        Err(WriteFault::Failed) => 4,
        Err(WriteFault::OutOfMemory) => 5,
    }
}

// Writes the line of a fault.
fn tell_fault<O: Sink>(alloc: Global, fault: &Fault, output: &mut O) -> u8
    ensures wrote { spec.Wrote 1 (spec.fault_line (spec.Refused fault.now)) result (O.taken output.old) (O.taken output.new) (O.faults output.old) (O.faults output.new) }
{
    match fault_line_of(alloc, fault) {
        Ok(line) => tell(line.as_str(), output),
        Err(_) => 5,
    }
}

// Writes the listing of the files.
fn list<O: Sink>(alloc: Global, files: &[PlannedFile], output: &mut O) -> u8
    ensures wrote { spec.Wrote 0 (listing files.now) result (O.taken output.old) (O.taken output.new) (O.faults output.old) (O.faults output.new) }
{
    match write_files(alloc, files, output) {
        Ok(()) => 0,
        Err(WriteFault::Failed) => 4,
        Err(WriteFault::OutOfMemory) => 5,
    }
}

// Writes the files of what was made of the bytes.
fn deliver<O: Sink>(alloc: Global, made: &Output, output: &mut O) -> u8
    ensures answered { (bytes : List ℕ) → IsOutputOf bytes made.now → spec.outcome bytes ≡ spec.planning (too_large made.now.«module») → spec.Answered bytes result (Some made.now) (O.taken output.old) (O.taken output.new) (O.faults output.old) (O.faults output.new) }
{
    match made.files(alloc) {
        Ok(files) => list(alloc, files.as_slice(), output),
        Err(EmitFault::OutOfMemory) => 5,
        Err(EmitFault::TooLarge { .. }) => tell(oversized_line(), output),
    }
}

// The generator for Deno, with its input.
fn generator(alloc: Global, bytes: Vec<u8>) -> Result<Bindgen, Fault>
    ensures set { IfOk result (λ b. b ≡ spec.with_bytes bytes.items) }
    ensures memory { IfErr result (λ e. e ≡ Fault.OutOfMemory) }
{
    let mut generator = Bindgen::new(false, false);
    match generator.deno(true) {
        Ok(_) => {}
        Err(_) => unreachable!(),
    }
    generator.input_bytes(alloc, "out", bytes)?;
    Ok(generator)
}

// Makes an output of the bytes.
fn generate(alloc: Global, bytes: Vec<u8>) -> Result<Output, Fault>
    ensures made { IfOk result (λ o. IsOutputOf bytes.items o × (spec.outcome bytes.items ≡ spec.planning (too_large o.«module»))) }
    ensures cause { IfErr result (λ e. e ≢ Fault.OutOfMemory → spec.outcome bytes.items ≡ Some (spec.Refused e)) }
{
    let mut generator = generator(alloc, bytes)?;
    generator.generate_output(alloc, &mut JsonLowering::new())
}

// Whether the fault is want of memory.
fn is_memory(fault: &Fault) -> bool
    ensures test { result ≡ spec.is_memory fault.now }
{
    match fault {
        Fault::OutOfMemory => true,
        _ => false,
    }
}

// Writes the line of a fault, but for want of memory.
fn refuse<O: Sink>(alloc: Global, fault: &Fault, output: &mut O) -> u8
    ensures answered { (bytes : List ℕ) → (fault.now ≢ Fault.OutOfMemory → spec.outcome bytes ≡ Some (spec.Refused fault.now)) → spec.Answered bytes result None (O.taken output.old) (O.taken output.new) (O.faults output.old) (O.faults output.new) }
{
    if is_memory(fault) {
        return 5;
    }
    tell_fault(alloc, fault, output)
}

// Makes what the bytes say, and writes it.
fn answer<O: Sink>(alloc: Global, bytes: Vec<u8>, output: &mut O) -> Ran
    ensures answered { spec.Answered bytes.items result.status result.output (O.taken output.old) (O.taken output.new) (O.faults output.old) (O.faults output.new) }
{
    match generate(alloc, bytes) {
        Ok(made) => {
            let status = deliver(alloc, &made, output);
            Ran {
                status,
                output: Some(made),
            }
        }
        Err(fault) => Ran {
            status: refuse(alloc, &fault, output),
            output: None,
        },
    }
}

// Whether the words are `--target` and `deno`.
fn are_read(words: &[String]) -> bool
    ensures read { IsTrue result ↔ AreRead words.now }
{
    match words {
        [first, second] => first.as_str() == "--target" && second.as_str() == "deno",
        _ => false,
    }
}

// The status of a source that wasn't read to its end.
fn status_of(stop: Stop) -> u8
    ensures failed { stop ≡ Stop.Failed → result ≡ 3 }
    ensures too_long { stop ≡ Stop.TooLong → result ≡ 6 }
    ensures memory { stop ≡ Stop.OutOfMemory → result ≡ 5 }
{
    match stop {
        Stop::Failed => 3,
        Stop::TooLong => 6,
        Stop::OutOfMemory => 5,
    }
}

// Reads the source to its end, where it isn't too long.
fn read_input<I: Source>(alloc: Global, input: &mut I) -> Result<Vec<u8>, Stop>
    ensures whole { IfOk result (λ v. IsWhole LIMIT (I.left input.old) (I.left input.new) v.items) }
    ensures failed { result ≡ Err Stop.Failed → Rose (I.faults input.old) (I.faults input.new) × TakesAtMost LIMIT (I.left input.old) (I.left input.new) }
    ensures too_long { result ≡ Err Stop.TooLong → TakesMoreThan LIMIT (I.left input.old) (I.left input.new) }
    ensures later { I.faults input.old ≤ I.faults input.new }
    ensures kept { result ≢ Err Stop.Failed → I.faults input.new ≡ I.faults input.old }
{
    read_whole(alloc, input, LIMIT, PIECE)
}

// A run that ends with this status before anything is made.
fn nothing_made(status: u8) -> Ran
    ensures run { result ≡ record { status = status; output = None } }
{
    Ran {
        status,
        output: None,
    }
}

/// Reads a module from the source to its end, and writes the listing of the files that are made of it.
///
/// `words` are those of the command line after the program's name; exactly `--target` and `deno` are read. The statuses:
/// 0, all was written; 1, the input has a fault, and its line was written; 2, the words aren't read, and nothing else was done;
/// 3, the source failed, and nothing was written; 4, the sink failed; 5, memory ran out; 6, the source has more than
/// 268,435,456 bytes, and nothing was written.
pub fn run<I: Source, O: Sink>(
    alloc: Global,
    words: &[String],
    input: &mut I,
    output: &mut O,
) -> Ran
    ensures known { result.status ≤ 6 }

    // All was read, and all of what it comes to was written: files that are linked, defined, published and mean their adapters,
    // or a fault's line.
    ensures done { result.status ≡ 0 → IsDone result.output None (I.left input.old) (I.left input.new) (O.taken output.old) (O.taken output.new) }
    ensures refused { result.status ≡ 1 → (cause : Cause) × IsDone result.output (Some cause) (I.left input.old) (I.left input.new) (O.taken output.old) (O.taken output.new) }

    // The words are not those that are read.
    ensures words { (result.status ≡ 2 → ¬ AreRead words.now) × (¬ AreRead words.now → result.status ≡ 2) }
    ensures untouched { result.status ≡ 2 → Keeps (I.left input.old) (I.left input.new) × Keeps (O.taken output.old) (O.taken output.new) }

    // An end failed.
    ensures read_failed { result.status ≡ 3 → Rose (I.faults input.old) (I.faults input.new) × Keeps (O.taken output.old) (O.taken output.new) }
    ensures write_failed { result.status ≡ 4 → Rose (O.faults output.old) (O.faults output.new) × IsPartly result.output (I.left input.old) (I.left input.new) (O.taken output.old) (O.taken output.new) }

    // Want of memory: nothing was made or written, or a part of what the input comes to was written, which may be nothing.
    ensures short { result.status ≡ 5 → ((result.output ≡ None) × Keeps (O.taken output.old) (O.taken output.new)) ⊎ IsPartly result.output (I.left input.old) (I.left input.new) (O.taken output.old) (O.taken output.new) }

    // The input is too long.
    ensures too_long { result.status ≡ 6 → TakesMoreThan LIMIT (I.left input.old) (I.left input.new) × Keeps (O.taken output.old) (O.taken output.new) }
    ensures not_too_long { result.status ≢ 6 → result.status ≢ 5 → TakesAtMost LIMIT (I.left input.old) (I.left input.new) }

    // It gives up for want of memory alone.
    ensures complete { AreRead words.now → EndsIn 0 None result.status (I.left input.old) (I.faults input.old) (I.faults input.new) (O.faults output.old) (O.faults output.new) }
    ensures complete_refusal { (cause : Cause) → AreRead words.now → EndsIn 1 (Some cause) result.status (I.left input.old) (I.faults input.old) (I.faults input.new) (O.faults output.old) (O.faults output.new) }

    ensures no_output { (result.status ≡ 2) ⊎ ((result.status ≡ 3) ⊎ (result.status ≡ 6)) → result.output ≡ None }
    ensures later { (I.faults input.old ≤ I.faults input.new) × (O.faults output.old ≤ O.faults output.new) }

    // No failure is passed over: the count of failed reads changes with status 3 alone, and that of failed writes with 4 or 5.
    // So neither has changed with 0, 1 or 2.
    ensures reads_kept { result.status ≢ 3 → I.faults input.new ≡ I.faults input.old }
    ensures writes_kept { result.status ≢ 4 → result.status ≢ 5 → O.faults output.new ≡ O.faults output.old }
{
    if !are_read(words) {
        return nothing_made(2);
    }
    match read_input(alloc, input) {
        Ok(bytes) => answer(alloc, bytes, output),
        Err(stop) => nothing_made(status_of(stop)),
    }
}
