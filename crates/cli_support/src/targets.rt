//! Setters of the target.
ghost use Rattle.std.specs.Prelude.{◌≡◌, ◌≢◌, ◌⊎◌, ◌↔◌, IfOk, IfErr, IsErr, IsOk, OnOk, OnErr, Some, None, codes, true, false};
ghost use Rattle.std.specs.Borrow.{sem};
ghost use Rattle.cli_support.specs.Configured as spec;
ghost use Rattle.cli_support.specs.GlobalName.{global_fault};
ghost use Rattle.cli_support.specs.Setting.{Rests, HeldRests};

use crate::bindgen::Bindgen;
use crate::fault::SetFault;
use crate::global_name::is_bad_global;
use crate::held::{Held, release_set};
use glue_shared::{EncodeInto, Target};
use std::alloc::Global;
use values::Text;

// The fault of a name that the global can't have.
fn bad_global(alloc: Global, name: &str) -> SetFault
    ensures fault { (result ≡ SetFault.OutOfMemory) ⊎ (result ≡ SetFault.BadGlobalName name.now) }
{
    match Text::from_str(alloc, name) {
        Ok(name) => SetFault::BadGlobalName { name },
        Err(_) => SetFault::OutOfMemory,
    }
}

// Lets a global through that the target takes.
fn check_global(alloc: Global, name: &str, target: &Target) -> Result<(), SetFault>
    ensures ok { OnOk result (global_fault name.now target.now ≡ None) }
    ensures cause { IfErr result (λ e. e ≢ SetFault.OutOfMemory → global_fault name.now target.now ≡ Some e) }
{
    if is_bad_global(name) {
        return Err(bad_global(alloc, name));
    }
    if matches!(target, Target::NoModules { .. }) {
        Ok(())
    } else {
        Err(SetFault::NotNoModules)
    }
}

impl Bindgen {
    // Makes files for the target, where none but the bundler's stands.
    fn set_target(&mut self, target: Target) -> Result<(), SetFault>
        ensures ok { OnOk result (self.new ≡ record self.old { target = target }) }
        ensures refused { OnErr result (self.new ≡ self.old) }
        ensures cause { IsErr result ↔ (spec.is_bundler self.old.target ≡ false) }
        ensures twice { IfErr result (λ e. e ≡ SetFault.ModeTwice) }
    {
        match self.target {
            Target::Bundler { browser_only: _ } => {
                self.target = target;
                Ok(())
            }
            _ => Err(SetFault::ModeTwice),
        }
    }

    fn hold_deno(&mut self, enable: bool) -> Result<Held<'_>, SetFault>
        ensures* refused { sem 𝓛 (HeldRests self.entry result) }
        ensures ok { IfOk result (λ b. b.at.now ≡ spec.with_deno enable self.old) }
        ensures same_reference { IfOk result (λ b. b.at.ghost_name ≡ self.entry.ghost_name) }
        ensures cause { IsErr result ↔ (spec.is_free enable self.old.target ≡ false) }
        ensures twice { IfErr result (λ e. e ≡ SetFault.ModeTwice) }
    {
        if enable {
            self.set_target(Target::Deno)?;
            self.encode_into = EncodeInto::Always;
        }
        Ok(Held { at: self })
    }

    /// Makes files for Deno, where `enable` says so, and has strings encoded in place; it answers the generator. `ModeTwice`
    /// comes exactly where a target other than the bundler's stands, and changes nothing.
    pub fn deno(&mut self, enable: bool) -> Result<&mut Bindgen, SetFault>
        ensures* refused { sem 𝓛 (Rests self.entry result) }
        ensures ok { IfOk result (λ b. b.now ≡ spec.with_deno enable self.old) }
        ensures same_reference { IfOk result (λ b. b.ghost_name ≡ self.entry.ghost_name) }
        ensures cause { IsErr result ↔ (spec.is_free enable self.old.target ≡ false) }
        ensures twice { IfErr result (λ e. e ≡ SetFault.ModeTwice) }
    {
        release_set(self.hold_deno(enable))
    }

    fn hold_nodejs(&mut self, enable: bool) -> Result<Held<'_>, SetFault>
        ensures* refused { sem 𝓛 (HeldRests self.entry result) }
        ensures ok { IfOk result (λ b. b.at.now ≡ spec.with_target enable (Target.Node false) self.old) }
        ensures same_reference { IfOk result (λ b. b.at.ghost_name ≡ self.entry.ghost_name) }
        ensures cause { IsErr result ↔ (spec.is_free enable self.old.target ≡ false) }
        ensures twice { IfErr result (λ e. e ≡ SetFault.ModeTwice) }
    {
        if enable {
            self.set_target(Target::Node { module: false })?;
        }
        Ok(Held { at: self })
    }

    /// Makes files for Node, by CommonJS, where `enable` says so, and answers the generator. `ModeTwice` comes exactly where
    /// a target other than the bundler's stands, and changes nothing.
    pub fn nodejs(&mut self, enable: bool) -> Result<&mut Bindgen, SetFault>
        ensures* refused { sem 𝓛 (Rests self.entry result) }
        ensures ok { IfOk result (λ b. b.now ≡ spec.with_target enable (Target.Node false) self.old) }
        ensures same_reference { IfOk result (λ b. b.ghost_name ≡ self.entry.ghost_name) }
        ensures cause { IsErr result ↔ (spec.is_free enable self.old.target ≡ false) }
        ensures twice { IfErr result (λ e. e ≡ SetFault.ModeTwice) }
    {
        release_set(self.hold_nodejs(enable))
    }

    fn hold_nodejs_module(&mut self, enable: bool) -> Result<Held<'_>, SetFault>
        ensures* refused { sem 𝓛 (HeldRests self.entry result) }
        ensures ok { IfOk result (λ b. b.at.now ≡ spec.with_target enable (Target.Node true) self.old) }
        ensures same_reference { IfOk result (λ b. b.at.ghost_name ≡ self.entry.ghost_name) }
        ensures cause { IsErr result ↔ (spec.is_free enable self.old.target ≡ false) }
        ensures twice { IfErr result (λ e. e ≡ SetFault.ModeTwice) }
    {
        if enable {
            self.set_target(Target::Node { module: true })?;
        }
        Ok(Held { at: self })
    }

    /// Makes files for Node, by an ES module, where `enable` says so, and answers the generator. `ModeTwice` comes exactly
    /// where a target other than the bundler's stands, and changes nothing.
    pub fn nodejs_module(&mut self, enable: bool) -> Result<&mut Bindgen, SetFault>
        ensures* refused { sem 𝓛 (Rests self.entry result) }
        ensures ok { IfOk result (λ b. b.now ≡ spec.with_target enable (Target.Node true) self.old) }
        ensures same_reference { IfOk result (λ b. b.ghost_name ≡ self.entry.ghost_name) }
        ensures cause { IsErr result ↔ (spec.is_free enable self.old.target ≡ false) }
        ensures twice { IfErr result (λ e. e ≡ SetFault.ModeTwice) }
    {
        release_set(self.hold_nodejs_module(enable))
    }

    fn hold_bundler(&mut self, enable: bool) -> Result<Held<'_>, SetFault>
        ensures* refused { sem 𝓛 (HeldRests self.entry result) }
        ensures ok { IfOk result (λ b. b.at.now ≡ spec.with_target enable (Target.Bundler false) self.old) }
        ensures same_reference { IfOk result (λ b. b.at.ghost_name ≡ self.entry.ghost_name) }
        ensures cause { IsErr result ↔ (spec.is_free enable self.old.target ≡ false) }
        ensures twice { IfErr result (λ e. e ≡ SetFault.ModeTwice) }
    {
        if enable {
            self.set_target(Target::Bundler {
                browser_only: false,
            })?;
        }
        Ok(Held { at: self })
    }

    /// Makes files for a bundler, and not for browsers alone, where `enable` says so, and answers the generator. `ModeTwice`
    /// comes exactly where a target other than the bundler's stands, and changes nothing.
    pub fn bundler(&mut self, enable: bool) -> Result<&mut Bindgen, SetFault>
        ensures* refused { sem 𝓛 (Rests self.entry result) }
        ensures ok { IfOk result (λ b. b.now ≡ spec.with_target enable (Target.Bundler false) self.old) }
        ensures same_reference { IfOk result (λ b. b.ghost_name ≡ self.entry.ghost_name) }
        ensures cause { IsErr result ↔ (spec.is_free enable self.old.target ≡ false) }
        ensures twice { IfErr result (λ e. e ≡ SetFault.ModeTwice) }
    {
        release_set(self.hold_bundler(enable))
    }

    fn hold_web(&mut self, enable: bool) -> Result<Held<'_>, SetFault>
        ensures* refused { sem 𝓛 (HeldRests self.entry result) }
        ensures ok { IfOk result (λ b. b.at.now ≡ spec.with_target enable Target.Web self.old) }
        ensures same_reference { IfOk result (λ b. b.at.ghost_name ≡ self.entry.ghost_name) }
        ensures cause { IsErr result ↔ (spec.is_free enable self.old.target ≡ false) }
        ensures twice { IfErr result (λ e. e ≡ SetFault.ModeTwice) }
    {
        if enable {
            self.set_target(Target::Web)?;
        }
        Ok(Held { at: self })
    }

    /// Makes files for a browser, by an ES module, where `enable` says so, and answers the generator. `ModeTwice` comes
    /// exactly where a target other than the bundler's stands, and changes nothing.
    pub fn web(&mut self, enable: bool) -> Result<&mut Bindgen, SetFault>
        ensures* refused { sem 𝓛 (Rests self.entry result) }
        ensures ok { IfOk result (λ b. b.now ≡ spec.with_target enable Target.Web self.old) }
        ensures same_reference { IfOk result (λ b. b.ghost_name ≡ self.entry.ghost_name) }
        ensures cause { IsErr result ↔ (spec.is_free enable self.old.target ≡ false) }
        ensures twice { IfErr result (λ e. e ≡ SetFault.ModeTwice) }
    {
        release_set(self.hold_web(enable))
    }

    fn hold_module(&mut self, enable: bool) -> Result<Held<'_>, SetFault>
        ensures* refused { sem 𝓛 (HeldRests self.entry result) }
        ensures ok { IfOk result (λ b. b.at.now ≡ spec.with_target enable Target.Module self.old) }
        ensures same_reference { IfOk result (λ b. b.at.ghost_name ≡ self.entry.ghost_name) }
        ensures cause { IsErr result ↔ (spec.is_free enable self.old.target ≡ false) }
        ensures twice { IfErr result (λ e. e ≡ SetFault.ModeTwice) }
    {
        if enable {
            self.set_target(Target::Module)?;
        }
        Ok(Held { at: self })
    }

    /// Makes an ES module that imports the WebAssembly module by its source phase, where `enable` says so, and answers the
    /// generator. `ModeTwice` comes exactly where a target other than the bundler's stands, and changes nothing.
    pub fn module(&mut self, enable: bool) -> Result<&mut Bindgen, SetFault>
        ensures* refused { sem 𝓛 (Rests self.entry result) }
        ensures ok { IfOk result (λ b. b.now ≡ spec.with_target enable Target.Module self.old) }
        ensures same_reference { IfOk result (λ b. b.ghost_name ≡ self.entry.ghost_name) }
        ensures cause { IsErr result ↔ (spec.is_free enable self.old.target ≡ false) }
        ensures twice { IfErr result (λ e. e ≡ SetFault.ModeTwice) }
    {
        release_set(self.hold_module(enable))
    }

    fn hold_browser(&mut self, enable: bool) -> Result<Held<'_>, SetFault>
        ensures* refused { sem 𝓛 (HeldRests self.entry result) }
        ensures ok { IfOk result (λ b. b.at.now ≡ spec.with_target enable (Target.Bundler true) self.old) }
        ensures same_reference { IfOk result (λ b. b.at.ghost_name ≡ self.entry.ghost_name) }
        ensures cause { IsErr result ↔ (spec.is_free enable self.old.target ≡ false) }
        ensures other { IfErr result (λ e. e ≡ SetFault.NotBundler) }
    {
        if enable {
            match self.set_target(Target::Bundler { browser_only: true }) {
                Ok(()) => {}
                Err(_) => return Err(SetFault::NotBundler),
            }
        }
        Ok(Held { at: self })
    }

    /// Makes a bundler's files for browsers alone, where `enable` says so, and answers the generator. `NotBundler` comes
    /// exactly where a target other than the bundler's stands, and changes nothing.
    pub fn browser(&mut self, enable: bool) -> Result<&mut Bindgen, SetFault>
        ensures* refused { sem 𝓛 (Rests self.entry result) }
        ensures ok { IfOk result (λ b. b.now ≡ spec.with_target enable (Target.Bundler true) self.old) }
        ensures same_reference { IfOk result (λ b. b.ghost_name ≡ self.entry.ghost_name) }
        ensures cause { IsErr result ↔ (spec.is_free enable self.old.target ≡ false) }
        ensures other { IfErr result (λ e. e ≡ SetFault.NotBundler) }
    {
        release_set(self.hold_browser(enable))
    }

    // Makes a script's files, where none but the bundler's stands.
    fn set_no_modules(&mut self, alloc: Global) -> Result<(), SetFault>
        ensures ok { OnOk result ((self.new ≡ record self.old { target = Target.NoModules (codes "wasm_bindgen") }) × (spec.is_bundler self.old.target ≡ true)) }
        ensures refused { OnErr result (self.new ≡ self.old) }
        ensures cause { IfErr result (λ e. (e ≡ SetFault.OutOfMemory) ⊎ ((e ≡ SetFault.ModeTwice) × (spec.is_bundler self.old.target ≡ false))) }
    {
        if !matches!(self.target, Target::Bundler { .. }) {
            return Err(SetFault::ModeTwice);
        }
        let global = Text::from_str(alloc, "wasm_bindgen")?;
        self.target = Target::NoModules { global };
        Ok(())
    }

    fn hold_no_modules(&mut self, alloc: Global, enable: bool) -> Result<Held<'_>, SetFault>
        ensures* refused { sem 𝓛 (HeldRests self.entry result) }
        ensures ok { IfOk result (λ b. (b.at.now ≡ spec.with_target enable (Target.NoModules (codes "wasm_bindgen")) self.old) × (spec.is_free enable self.old.target ≡ true)) }
        ensures same_reference { IfOk result (λ b. b.at.ghost_name ≡ self.entry.ghost_name) }
        ensures cause { IfErr result (λ e. (e ≡ SetFault.OutOfMemory) ⊎ ((e ≡ SetFault.ModeTwice) × (spec.is_free enable self.old.target ≡ false))) }
        ensures off { enable ≡ false → IsOk result }
    {
        if enable {
            self.set_no_modules(alloc)?;
        }
        Ok(Held { at: self })
    }

    /// Makes files for a browser, by a script that defines the global `wasm_bindgen`, where `enable` says so, and answers the
    /// generator. `ModeTwice` comes exactly where a target other than the bundler's stands. A refusal changes nothing.
    pub fn no_modules(&mut self, alloc: Global, enable: bool) -> Result<&mut Bindgen, SetFault>
        ensures* refused { sem 𝓛 (Rests self.entry result) }
        ensures ok { IfOk result (λ b. (b.now ≡ spec.with_target enable (Target.NoModules (codes "wasm_bindgen")) self.old) × (spec.is_free enable self.old.target ≡ true)) }
        ensures same_reference { IfOk result (λ b. b.ghost_name ≡ self.entry.ghost_name) }
        ensures cause { IfErr result (λ e. (e ≡ SetFault.OutOfMemory) ⊎ ((e ≡ SetFault.ModeTwice) × (spec.is_free enable self.old.target ≡ false))) }
        ensures off { enable ≡ false → IsOk result }
    {
        release_set(self.hold_no_modules(alloc, enable))
    }

    fn set_no_modules_global(&mut self, alloc: Global, name: &str) -> Result<(), SetFault>
        ensures ok { OnOk result ((self.new ≡ record self.old { target = Target.NoModules name.now }) × (global_fault name.now self.old.target ≡ None)) }
        ensures refused { OnErr result (self.new ≡ self.old) }
        ensures cause { IfErr result (λ e. e ≢ SetFault.OutOfMemory → global_fault name.now self.old.target ≡ Some e) }
    {
        check_global(alloc, name, &self.target)?;
        let global = Text::from_str(alloc, name)?;
        self.target = Target::NoModules { global };
        Ok(())
    }

    fn hold_no_modules_global(&mut self, alloc: Global, name: &str) -> Result<Held<'_>, SetFault>
        ensures* refused { sem 𝓛 (HeldRests self.entry result) }
        ensures ok { IfOk result (λ b. (b.at.now ≡ record self.old { target = Target.NoModules name.now }) × (global_fault name.now self.old.target ≡ None)) }
        ensures same_reference { IfOk result (λ b. b.at.ghost_name ≡ self.entry.ghost_name) }
        ensures cause { IfErr result (λ e. e ≢ SetFault.OutOfMemory → global_fault name.now self.old.target ≡ Some e) }
    {
        self.set_no_modules_global(alloc, name)?;
        Ok(Held { at: self })
    }

    /// Sets the global that a script defines, and answers the generator. The first of these decides: `BadGlobalName` where
    /// the name is no identifier, is a name that every host may give (`HOSTS`), or one that a glue file may bind, whatever
    /// its module holds; `NotNoModules` where the target is another. A refusal changes nothing. A name such as `NaN` or
    /// `window` is taken, though a page can't redefine it.
    pub fn no_modules_global(&mut self, alloc: Global, name: &str) -> Result<&mut Bindgen, SetFault>
        ensures* refused { sem 𝓛 (Rests self.entry result) }
        ensures ok { IfOk result (λ b. (b.now ≡ record self.old { target = Target.NoModules name.now }) × (global_fault name.now self.old.target ≡ None)) }
        ensures same_reference { IfOk result (λ b. b.ghost_name ≡ self.entry.ghost_name) }
        ensures cause { IfErr result (λ e. e ≢ SetFault.OutOfMemory → global_fault name.now self.old.target ≡ Some e) }
    {
        release_set(self.hold_no_modules_global(alloc, name))
    }
}
