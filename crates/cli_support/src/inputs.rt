//! Setters that take memory for what they are handed: the input, and texts.
ghost use Rattle.std.specs.Prelude.{◌≡◌, IfOk, OnOk, OnErr, Some};
ghost use Rattle.std.specs.Borrow.{sem};
ghost use Rattle.cli_support.specs.Setting.{Rests, HeldRests};

use crate::bindgen::{Bindgen, Handed};
use crate::held::{Held, release_kept};
use std::alloc::{AllocError, Global};
use values::{Seq, Text};
use wasm_core::Module;

impl Bindgen {
    fn set_out_name(&mut self, alloc: Global, name: &str) -> Result<(), AllocError>
        ensures ok { OnOk result (self.new ≡ record self.old { out_name = Some name.now }) }
        ensures refused { OnErr result (self.new ≡ self.old) }
    {
        let name = Text::from_str(alloc, name)?;
        self.out_name = Some(name);
        Ok(())
    }

    fn hold_out_name(&mut self, alloc: Global, name: &str) -> Result<Held<'_>, AllocError>
        ensures* refused { sem 𝓛 (HeldRests self.entry result) }
        ensures ok { IfOk result (λ b. b.at.now ≡ record self.old { out_name = Some name.now }) }
        ensures same_reference { IfOk result (λ b. b.at.ghost_name ≡ self.entry.ghost_name) }
    {
        self.set_out_name(alloc, name)?;
        Ok(Held { at: self })
    }

    /// Keeps a name for what is made, and answers the generator. It changes nothing: the name of the files is that of the input.
    /// Where memory runs out the earlier one stays.
    pub fn out_name(&mut self, alloc: Global, name: &str) -> Result<&mut Bindgen, AllocError>
        ensures* refused { sem 𝓛 (Rests self.entry result) }
        ensures ok { IfOk result (λ b. b.now ≡ record self.old { out_name = Some name.now }) }
        ensures same_reference { IfOk result (λ b. b.ghost_name ≡ self.entry.ghost_name) }
    {
        release_kept(self.hold_out_name(alloc, name))
    }

    fn set_debug_info_url(&mut self, alloc: Global, url: &str) -> Result<(), AllocError>
        ensures ok { OnOk result (self.new ≡ record self.old { debug_info_url = Some url.now }) }
        ensures refused { OnErr result (self.new ≡ self.old) }
    {
        let url = Text::from_str(alloc, url)?;
        self.debug_info_url = Some(url);
        Ok(())
    }

    fn hold_debug_info_url(&mut self, alloc: Global, url: &str) -> Result<Held<'_>, AllocError>
        ensures* refused { sem 𝓛 (HeldRests self.entry result) }
        ensures ok { IfOk result (λ b. b.at.now ≡ record self.old { debug_info_url = Some url.now }) }
        ensures same_reference { IfOk result (λ b. b.at.ghost_name ≡ self.entry.ghost_name) }
    {
        self.set_debug_info_url(alloc, url)?;
        Ok(Held { at: self })
    }

    /// Keeps the URL under which debug sections that are split off are to be named, and answers the generator. A call with it and
    /// without `split_debug_info` refuses (`DebugUrlWithoutSplit`). Where memory runs out the earlier one stays.
    pub fn debug_info_url(&mut self, alloc: Global, url: &str) -> Result<&mut Bindgen, AllocError>
        ensures* refused { sem 𝓛 (Rests self.entry result) }
        ensures ok { IfOk result (λ b. b.now ≡ record self.old { debug_info_url = Some url.now }) }
        ensures same_reference { IfOk result (λ b. b.ghost_name ≡ self.entry.ghost_name) }
    {
        release_kept(self.hold_debug_info_url(alloc, url))
    }

    fn set_input(&mut self, alloc: Global, name: &str, handed: Handed) -> Result<(), AllocError>
        ensures ok { OnOk result (self.new ≡ record self.old { input = Some (name.now, handed) }) }
        ensures refused { OnErr result (self.new ≡ self.old) }
    {
        match Text::from_str(alloc, name) {
            Ok(stem) => {
                self.input = Some((stem, handed));
                Ok(())
            }
            Err(error) => {
                drop(handed);
                Err(error)
            }
        }
    }

    fn hold_input_bytes(
        &mut self,
        alloc: Global,
        name: &str,
        bytes: Vec<u8>,
    ) -> Result<Held<'_>, AllocError>
        ensures* refused { sem 𝓛 (HeldRests self.entry result) }
        ensures ok { IfOk result (λ b. b.at.now ≡ record self.old { input = Some (name.now, Handed.Bytes bytes.items) }) }
        ensures same_reference { IfOk result (λ b. b.at.ghost_name ≡ self.entry.ghost_name) }
    {
        self.set_input(alloc, name, Handed::Bytes(Seq::from_vec(bytes)))?;
        Ok(Held { at: self })
    }

    /// Hands in a module's bytes, and the name that its files begin with, in place of an earlier input, and answers the generator.
    /// Each call reads the module anew. Where memory runs out the bytes are dropped, and the earlier input stays.
    pub fn input_bytes(
        &mut self,
        alloc: Global,
        name: &str,
        bytes: Vec<u8>,
    ) -> Result<&mut Bindgen, AllocError>
        ensures* refused { sem 𝓛 (Rests self.entry result) }
        ensures ok { IfOk result (λ b. b.now ≡ record self.old { input = Some (name.now, Handed.Bytes bytes.items) }) }
        ensures same_reference { IfOk result (λ b. b.ghost_name ≡ self.entry.ghost_name) }
    {
        release_kept(self.hold_input_bytes(alloc, name, bytes))
    }

    fn hold_input_module(
        &mut self,
        alloc: Global,
        name: &str,
        module: Module,
    ) -> Result<Held<'_>, AllocError>
        ensures* refused { sem 𝓛 (HeldRests self.entry result) }
        ensures ok { IfOk result (λ b. b.at.now ≡ record self.old { input = Some (name.now, Handed.Module (Some «module»)) }) }
        ensures same_reference { IfOk result (λ b. b.at.ghost_name ≡ self.entry.ghost_name) }
    {
        self.set_input(alloc, name, Handed::Module(Some(module)))?;
        Ok(Held { at: self })
    }

    /// Hands in a module, and the name that its files begin with, in place of an earlier input, and answers the generator. The next
    /// call takes the module; what it was read with stays, whatever is set about names, producers and debug sections. Where memory
    /// runs out the module is dropped, and the earlier input stays.
    pub fn input_module(
        &mut self,
        alloc: Global,
        name: &str,
        module: Module,
    ) -> Result<&mut Bindgen, AllocError>
        ensures* refused { sem 𝓛 (Rests self.entry result) }
        ensures ok { IfOk result (λ b. b.now ≡ record self.old { input = Some (name.now, Handed.Module (Some «module»)) }) }
        ensures same_reference { IfOk result (λ b. b.ghost_name ≡ self.entry.ghost_name) }
    {
        release_kept(self.hold_input_module(alloc, name, module))
    }
}
