//! The call that makes an output of what is set and handed in.
ghost use Rattle.std.specs.Prelude.{◌≡◌, ◌≢◌, ◌⊎◌, IfOk, IfSome, ◌≤◌, IfErr, OnOk, Ok, Err, Some, None};
ghost use Rattle.std.specs.List.{list_all};
ghost use Rattle.wasm_core.specs.Parsing as parsing;
ghost use Rattle.values.specs.Count.{Rose};
ghost use Rattle.glue_context.specs.Edits.{AreFit, edited};
ghost use Rattle.glue_context.specs.Keys.{described_keys};
ghost use Rattle.glue_context.specs.Rewritten.{edits_of, rewritten};
ghost use Rattle.glue_shared.specs.Names.{host_names};
ghost use Rattle.cli_support.specs.Listed.{IsSortedSet};
ghost use Rattle.cli_support.specs.Configured.{call_settings, file_flags, reading};
ghost use Rattle.cli_support.specs.Generating as spec;

use crate::bindgen::{Bindgen, Flags, Handed};
use crate::hosts::host_set;
use crate::keys::key_set;
use crate::output::Output;
use glue_check::{Checked, FileFlags, check};
use glue_context::{Edits, apply_edits, edits_of, glue_items};
use glue_faults::Fault;
use glue_lower::{LowerFault, Lowering};
use glue_naming::draw_names;
use glue_prepare::{Prepared, prepare};
use glue_scope::IdentScope;
use glue_shared::{Lowered, Settings, roots};
use glue_words::Item;
use std::alloc::{AllocError, Global};
use values::{Seq, Text};
use wasm_core::{Module, ParseConfig, ParseFault};

fn is_stem_byte(b: u8) -> bool
    ensures test { result ≡ spec.is_stem_byte b }
{
    b.is_ascii_alphanumeric() || b == b'_' || b == b'-' || b == b'.'
}

// Whether each of the bytes is one of a name for files.
fn are_stem_bytes(bytes: &[u8]) -> bool
    ensures test { result ≡ list_all spec.is_stem_byte bytes.now }
{
    bytes.iter().all(|b| is_stem_byte(*b))
}

// Whether the name is one for files: ASCII letters, digits, `_`, `-` and `.`, and at least one of them.
fn is_stem(name: &str) -> bool
    ensures test { result ≡ spec.is_stem name.now }
{
    match name.as_bytes().split_first() {
        None => false,
        Some((first, rest)) => is_stem_byte(*first) && are_stem_bytes(rest),
    }
}

// How a byte input is read and written.
fn parse_config(flags: &Flags) -> ParseConfig
    ensures config { result ≡ reading flags.now }
{
    ParseConfig {
        keep_debug: flags.keep_debug || flags.split_debug_info,
        names: !flags.remove_name_section,
        producers: !flags.remove_producers_section,
    }
}

// The module that the bytes are.
fn parse(alloc: Global, config: &ParseConfig, bytes: &[u8]) -> Result<Module, Fault>
    ensures step { spec.IsStep result (spec.parsed (parsing.module_of config.now bytes.now)) }
    ensures early { IfErr result (λ f. f ≢ Fault.Lower) }
{
    match Module::parse(alloc, bytes, config) {
        Ok(module) => Ok(module),
        Err(ParseFault::Parse { place }) => Err(Fault::Parse { place }),
        Err(ParseFault::OutOfMemory) => Err(Fault::OutOfMemory),
    }
}

// Whether an earlier call took the module.
fn is_spent(handed: &Handed) -> bool
    ensures test { result ≡ spec.is_spent handed.now }
{
    match handed {
        Handed::Bytes(_) => false,
        Handed::Module(module) => module.is_none(),
    }
}

// Tests an input: its module is there, and its name is one for files.
fn check_handed(input: &(Text, Handed)) -> Result<(), Fault>
    ensures ok { OnOk result (spec.tested input.now ≡ spec.pure tt) }
    ensures refused { IfErr result (λ f. spec.tested input.now ≡ spec.refuse f) }
    ensures early { IfErr result (λ f. f ≢ Fault.Lower) }
{
    if is_spent(&input.1) {
        return Err(Fault::InputSpent);
    }
    if is_stem(input.0.as_str()) {
        Ok(())
    } else {
        Err(Fault::BadStem)
    }
}

// The module of an input. One that was handed in as it is gets taken out; bytes are read, and stay.
fn take_handed(alloc: Global, config: &ParseConfig, handed: &mut Handed) -> Result<Module, Fault>
    ensures step { spec.IsStep result (spec.module_in config.now handed.old) }
    ensures spent { handed.new ≡ spec.spent handed.old }
    ensures early { IfErr result (λ f. f ≢ Fault.Lower) }
{
    match handed {
        Handed::Bytes(bytes) => parse(alloc, config, bytes.as_slice()),
        Handed::Module(module) => match module.take() {
            Some(module) => Ok(module),
            None => Err(Fault::InputSpent),
        },
    }
}

// The description of a module, by the lowering.
fn lower<L: Lowering>(
    alloc: Global,
    settings: &Settings,
    module: Module,
    lowering: &mut L,
) -> Result<Lowered, Fault>
    ensures ok { IfOk result (λ l. IfSome (L.told lowering.old settings.now «module») (λ t. t ≡ Some l)) }
    ensures refused { IfErr result (λ f. (f ≡ Fault.OutOfMemory) ⊎ ((f ≡ Fault.Lower) × IfSome (L.told lowering.old settings.now «module») (λ t. t ≡ None))) }
    ensures failed { result ≡ Err Fault.Lower → Rose (L.faults lowering.old) (L.faults lowering.new) }
    ensures later { L.faults lowering.old ≤ L.faults lowering.new }
{
    match lowering.lower(alloc, settings, module) {
        Ok(lowered) => Ok(lowered),
        Err(LowerFault::Failed) => Err(Fault::Lower),
        Err(LowerFault::OutOfMemory) => Err(Fault::OutOfMemory),
    }
}

// Leaves nothing of a description's module but what can be reached.
#[tactic(auto, using(crate::proofs::Rooted::live_roots))]
fn collect_module(alloc: Global, lowered: &mut Lowered) -> Result<(), AllocError>
    ensures collected { OnOk result (lowered.new ≡ spec.collected_description lowered.old) }
{
    let kept = roots(alloc, lowered)?;
    wasm_collect::collect(alloc, &mut lowered.module, kept.as_slice())
}

// The description with nothing left of its module but what can be reached.
fn collect(alloc: Global, lowered: Lowered) -> Result<Lowered, AllocError>
    ensures collected { IfOk result (λ l. l ≡ spec.collected_description lowered) }
{
    let mut lowered = lowered;
    match collect_module(alloc, &mut lowered) {
        Ok(()) => Ok(lowered),
        Err(error) => {
            drop(lowered);
            Err(error)
        }
    }
}

// The names of the outside and the computed keys of a description.
fn list(alloc: Global, checked: &Checked) -> Result<(Seq<Text>, Seq<Text>), AllocError>
    ensures hosts { IfOk result (λ listed. IsSortedSet (host_names checked.now.settings checked.now.lowered.aux) listed.0) }
    ensures keys { IfOk result (λ listed. IsSortedSet (described_keys checked.now.lowered.aux) listed.1) }
{
    let aux = &checked.lowered().aux;
    let hosts = host_set(alloc, checked.settings(), aux)?;
    let keys = key_set(alloc, aux)?;
    Ok((hosts, keys))
}

// The items of a description, under names that are drawn for it.
#[tactic(auto, using(glue_context::proofs::Facts::apart_built, glue_context::proofs::Facts::bindable_built, glue_context::proofs::Facts::declarable_built, glue_context::proofs::Facts::definable_built))]
fn planned_items(alloc: Global, checked: &Checked) -> Result<Seq<Item>, AllocError>
    ensures items { IfOk result (λ items. spec.AreItemsOf checked.now.settings checked.now.lowered items) }
{
    let names = draw_names::<IdentScope>(alloc, checked)?;
    let items = glue_items::<IdentScope>(alloc, checked.settings(), checked.lowered(), &names)?;
    Ok(items)
}

// The items of a description, and what is changed in its module.
fn plan(alloc: Global, checked: &Checked) -> Result<(Seq<Item>, Edits), AllocError>
    ensures items { IfOk result (λ drawn. spec.AreItemsOf checked.now.settings checked.now.lowered drawn.0) }
    ensures edits { IfOk result (λ drawn. drawn.1 ≡ edits_of checked.now.settings checked.now.lowered) }
    ensures fit { IfOk result (λ drawn. AreFit drawn.1 checked.now.lowered.«module») }
{
    let items = planned_items(alloc, checked)?;
    let edits = edits_of::<IdentScope>(alloc, checked.settings(), checked.lowered())?;
    Ok((items, edits))
}

// The module, changed as the edits say.
fn change(alloc: Global, module: Module, edits: &Edits) -> Result<Module, AllocError>
    requires fit { AreFit edits.now «module» }
    ensures edited { IfOk result (λ m. m ≡ edited edits.now «module») }
{
    let mut module = module;
    match apply_edits(alloc, &mut module, edits) {
        Ok(()) => Ok(module),
        Err(error) => {
            drop(module);
            Err(error)
        }
    }
}

// The items of a description, and its module with what is changed for them.
fn draw(alloc: Global, checked: Checked) -> Result<(Seq<Item>, Module), AllocError>
    ensures items { IfOk result (λ drawn. spec.AreItemsOf checked.settings checked.lowered drawn.0) }
    ensures rewritten { IfOk result (λ drawn. drawn.1 ≡ rewritten checked.settings checked.lowered) }
{
    match plan(alloc, &checked) {
        Ok((items, edits)) => {
            let module = change(alloc, checked.into_module(), &edits)?;
            Ok((items, module))
        }
        Err(error) => {
            drop(checked);
            Err(error)
        }
    }
}

impl Bindgen {
    // Tests what was set and handed in.
    fn check_input(&self) -> Result<(), Fault>
        ensures ok { OnOk result (spec.checked self.now ≡ spec.pure tt) }
        ensures refused { IfErr result (λ f. spec.checked self.now ≡ spec.refuse f) }
        ensures kept { IfErr result (λ f. spec.after_call self.now ≡ self.now) }
        ensures early { IfErr result (λ f. f ≢ Fault.Lower) }
    {
        if self.debug_info_url.is_some() && !self.flags.split_debug_info {
            return Err(Fault::DebugUrlWithoutSplit);
        }
        match &self.input {
            Some(input) => check_handed(input),
            None => Err(Fault::NoInput),
        }
    }

    // The module that was handed in.
    fn take_module(&mut self, alloc: Global) -> Result<Module, Fault>
        ensures step { spec.IsStep result (spec.taken self.old) }
        ensures spent { spec.checked self.old ≡ spec.pure tt → self.new ≡ spec.after_call self.old }
        ensures kept { (call_settings self.new ≡ call_settings self.old) × (self.new.flags ≡ self.old.flags) }
        ensures early { IfErr result (λ f. f ≢ Fault.Lower) }
    {
        let config = parse_config(&self.flags);
        match &mut self.input {
            Some(input) => take_handed(alloc, &config, &mut input.1),
            None => Err(Fault::NoInput),
        }
    }

    // The settings of the call, beside the module.
    fn with_settings(&self, alloc: Global, module: Module) -> Result<(Settings, Module), AllocError>
        ensures both { IfOk result (λ call. call ≡ (call_settings self.now, «module»)) }
    {
        match self.settings(alloc) {
            Ok(settings) => Ok((settings, module)),
            Err(error) => {
                drop(module);
                Err(error)
            }
        }
    }

    // Whether the exports stay that a linker makes for itself.
    fn keeps_lld_exports(&self) -> bool
        ensures keeps { result ≡ self.now.flags.keep_lld_exports }
    {
        self.flags.keep_lld_exports
    }

    // What is asked for of the files themselves.
    fn file_flags(&self) -> FileFlags
        ensures flags { result ≡ file_flags self.now.flags }
    {
        FileFlags {
            split_debug_info: self.flags.split_debug_info,
            demangle: self.flags.demangle,
        }
    }

    /// Makes the glue file and the module that goes with it. Whatever it answers, the settings stay, and so does a byte input. A module
    /// that was handed in is taken exactly where the tests of the input pass, whatever follows: the next call refuses (`InputSpent`)
    /// until another input is handed in.
    ///
    /// The steps, of which the first fault decides:
    ///
    /// - `check_input`: `DebugUrlWithoutSplit` where a URL of debug information is set, but not that it is split off; `NoInput` without
    ///   input; `InputSpent` where a call took the module; `BadStem` where the name is empty or holds anything beside ASCII letters,
    ///   digits, `_`, `-` and `.`.
    /// - `take_module`: `Parse` where the bytes are no module, with the offset of the first fault.
    /// - `prepare` of `glue_prepare` makes the settings of the call and the module fit for each other: `DefaultExport` for the web, where
    ///   the module exports `default`; `ResetStateTarget` where the module is to be started anew by a function that the target doesn't
    ///   have.
    /// - `lower`: `Lower` where the lowering failed.
    /// - `collect` leaves nothing of the module but what can be reached.
    /// - `check` of `glue_check`: `NotBuilt` where something is asked for that isn't built, with the first kind of it (`unbuilt`); else
    ///   the first condition that the description or its module meets (`verdict`).
    /// - `list` lists the names of the outside and the computed keys; `draw` makes the items, and changes the module for them.
    pub fn generate_output<L: Lowering>(
        &mut self,
        alloc: Global,
        lowering: &mut L,
    ) -> Result<Output, Fault>
        ensures after { self.new ≡ spec.after_call self.old }
        ensures made { IfOk result (λ o. spec.CallAnswers (L.told lowering.old) self.old (Ok o)) }
        ensures cause { IfErr result (λ f. spec.CallAnswers (L.told lowering.old) self.old (Err f)) }
        ensures lower { result ≡ Err Fault.Lower → Rose (L.faults lowering.old) (L.faults lowering.new) }
        ensures later { L.faults lowering.old ≤ L.faults lowering.new }
    {
        self.check_input()?;
        let module = self.take_module(alloc)?;
        let (settings, module) = self.with_settings(alloc, module)?;
        let Prepared {
            settings,
            module,
            features_missing,
        } = prepare(alloc, self.keeps_lld_exports(), settings, module)?;
        let lowered = lower(alloc, &settings, module, lowering)?;
        let lowered = collect(alloc, lowered)?;
        let checked = check(alloc, self.file_flags(), &settings, lowered)?;
        let (hosts, keys) = list(alloc, &checked)?;
        let (items, module) = draw(alloc, checked)?;
        Ok(Output::new(
            alloc,
            settings,
            hosts,
            keys,
            items,
            module,
            features_missing,
        )?)
    }
}
