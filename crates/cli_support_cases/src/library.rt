//! What README.md shows of the library.
use cli_support::{Bindgen, JsonLowering};
use glue_ends::PlannedFile;
use std::alloc::Global;
use std::test::Fail;
use values::Seq;

/// The files of a module's bytes, for Deno.
fn files_of(alloc: Global, bytes: Vec<u8>) -> Result<Seq<PlannedFile>, Fail> {
    let mut generator = Bindgen::new(false, false);
    generator.deno(true)?;
    generator.input_bytes(alloc, "out", bytes)?;
    let output = generator.generate_output(alloc, &mut JsonLowering::new())?;
    Ok(output.files(alloc)?)
}

#[test]
fn a_program_makes_both_files(rt: HostRuntime) -> Result<(), Fail> {
    let bytes = Vec::from_slice(rt.alloc(), b"\0asm\x01\0\0\0")?;
    let files = files_of(rt.alloc(), bytes)?;
    let paths = ["out_bg.wasm", "out.js"];
    assert!(rt; files.len() == paths.len());
    for (file, path) in files.as_slice().iter().zip(paths) {
        assert!(rt; file.path.as_str() == path);
    }
    Ok(())
}
