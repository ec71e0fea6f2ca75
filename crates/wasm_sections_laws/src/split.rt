//! A written module split from its debugging information.

ghost use Rattle.std.specs.Prelude.{◌≡◌, ◌≢◌, true, None, IfOk, IfErr, Ok};
ghost use Rattle.std.specs.List.{All};
ghost use Rattle.std.specs.Str.{is_utf8};
ghost use Rattle.wasm_core.specs.declared.faults.ParseFault.TheVariants.{OutOfMemory};
ghost use Rattle.wasm_emission.specs.Emission.{bytes_of, too_large};
ghost use Rattle.wasm_file.specs.declared.entries.Custom.{Custom};
ghost use Rattle.wasm_sections.specs.Replaced.{split_debug_info};
ghost use Rattle.wasm_sections_laws.specs.Written.{split_bytes};

use std::alloc::{AllocError, Global};
use wasm_core::{Custom, Module, ParseFault};
use wasm_sections::split_debug_info;

/// The name of a custom section is UTF-8: it is kept as a text. Nothing is computed.
fn name_is_utf8(custom: &Custom)
    ensures { is_utf8 custom.now.name ≡ true }
{
    let _name: &str = custom.name.as_str();
}

/// The names of custom sections are UTF-8.
fn names_are_utf8(customs: &[Custom])
    ensures { All (λ (c : Custom). is_utf8 c.name ≡ true) customs.now }
{
    for custom in customs {
        name_is_utf8(custom);
    }
}

/// The bytes that a module was written as, without its debugging information, which is told to be at the address: the file of
/// the module's sections but the custom ones `.debug_*`, and of the section `external_debug_info` behind them. The bytes have to
/// be those that `emit` gives for this module. An error means that memory ran out.
pub fn split_module(
    alloc: Global,
    module: &Module,
    wasm: &[u8],
    url: &str,
) -> Result<Vec<u8>, AllocError>
    requires written { wasm.now ≡ bytes_of «module».now }
    requires short { too_large «module».now ≡ None }
    ensures ok { IfOk result (λ v. v.items ≡ split_bytes url.now «module».now) }
{
    names_are_utf8(module.customs());
    match split_debug_info(alloc, wasm, url) {
        Ok(split) => Ok(split),
        Err(ParseFault::OutOfMemory) => Err(AllocError),
        Err(ParseFault::Parse { .. }) => unreachable!(),
    }
}
