//! What may be changed in an output.
use cli_support::{Bindgen, EmitFault, Fault, JsonLowering, Output};
use std::alloc::Global;
use std::test::Fail;

// The empty module, made for Deno.
fn made(alloc: Global) -> Result<Output, Fault> {
    let mut generator = Bindgen::new(false, false);
    if generator.deno(true).is_err() {
        return Err(Fault::OutOfMemory);
    }
    generator.input_bytes(alloc, "out", Vec::from_slice(alloc, b"\0asm\x01\0\0\0")?)?;
    generator.generate_output(alloc, &mut JsonLowering::new())
}

// How long the module's file is, which is the first one.
fn module_length(alloc: Global, output: &Output) -> Result<usize, EmitFault> {
    let files = output.files(alloc)?;
    Ok(files.get(0).map_or(0, |file| file.bytes.len()))
}

// The eight bytes of the module and its producers are 56; a further name of 4 bytes and a version of one take 7 there.
#[test]
fn an_outputs_module_is_changed(rt: HostRuntime) -> Result<(), Fail> {
    let mut output = made(rt.alloc())?;
    output.wasm_mut().add_processed_by(rt.alloc(), "tool", "1")?;
    let length = module_length(rt.alloc(), &output);
    drop(output);
    assert!(rt; length? == 63);
    Ok(())
}
