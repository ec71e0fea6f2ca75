//! What a call makes, and the files that are planned of it.
ghost use Rattle.std.specs.Prelude.{◌≡◌, ◌++◌, codes, IfOk, Err, Some, None, true, false, string_bytes};
ghost use Rattle.wasm_emission.specs.Emission.{bytes_of, too_large};
ghost use Rattle.glue_words.specs.Words.{printed};
ghost use Rattle.glue_layout.specs.Layout.{indented};
ghost use Rattle.std.specs.Borrow.{Lends, sem};
ghost use Rattle.wasm_core.specs.contracts.module.Module as modules;
ghost use Rattle.cli_support.specs.contracts.output.Output as outputs;
ghost use Rattle.cli_support.specs.Plan.{plan_of};

use glue_ends::PlannedFile;
use glue_layout::reset_indentation;
use glue_shared::Settings;
use glue_words::{Item, print};
use std::alloc::{AllocError, Global};
use std::marker::Model;
use values::{Seq, Text};
use wasm_core::Module;
use wasm_emission::{EmitFault, emit};

/// What a call made: the items of the glue file, their text, and the module that goes with it.
#[derive(Drop)]
pub struct Output {
    settings: Settings,
    hosts: Seq<Text>,
    keys: Seq<Text>,
    items: Seq<Item>,
    js: Text,
    module: Module,
    features_missing: bool,
}

impl Model for Output {
    ghost use Rattle.cli_support.specs.Generating.{Made};

    ghost Value = { Made };

    ghost view = { λ o. record { settings = o.settings; hosts = o.hosts; keys = o.keys; items = o.items; js = o.js; «module» = o.«module»; features_missing = o.features_missing } };
}

// The stem with an ending.
fn path_of(alloc: Global, stem: &Text, ending: &str) -> Result<Text, AllocError>
    ensures path { IfOk result (λ path. path ≡ stem.now ++ ending.now) }
{
    let mut path = Text::from_str(alloc, stem.as_str())?;
    path.push_str(ending)?;
    Ok(path)
}

// The bytes of a text.
fn bytes_of_text(text: String) -> Seq<u8>
    ensures bytes { result ≡ string_bytes text }
{
    Seq::from_vec(text.into_bytes())
}

impl Output {
    // The output of items and the module that goes with them, with the names of the outside and the computed keys that were described.
    pub(crate) fn new(
        alloc: Global,
        settings: Settings,
        hosts: Seq<Text>,
        keys: Seq<Text>,
        items: Seq<Item>,
        module: Module,
        features_missing: bool,
    ) -> Result<Output, AllocError>
        ensures made { IfOk result (λ o. o ≡ record { settings = settings; hosts = hosts; keys = keys; items = items; js = printed items; «module» = «module»; features_missing = features_missing }) }
    {
        match print(alloc, items.as_slice()) {
            Ok(js) => Ok(Output {
                settings,
                hosts,
                keys,
                items,
                js: Text::new(js),
                module,
                features_missing,
            }),
            Err(error) => {
                drop(module);
                Err(error)
            }
        }
    }

    /// The text of the glue file, before its lines are indented.
    pub fn js(&self) -> &str
        ensures js { result.now ≡ self.now.js }
    {
        self.js.as_str()
    }

    /// The text of the file that a bundler starts from. No other target has one.
    pub fn start(&self) -> Option<&str>
        ensures none { result ≡ None }
    {
        None
    }

    /// The module that the glue file loads.
    pub fn wasm(&self) -> &Module
        ensures wasm { result.now ≡ self.now.«module» }
    {
        &self.module
    }

    /// The module that the glue file loads, to be changed: what is written there is the output's module from then on, and all else stays.
    pub fn wasm_mut(&mut self) -> &mut Module
        ensures* writes_back { sem 𝓛 (Lends outputs.the_row modules.the_row self.entry result (λ w. record self.old { «module» = w })) }
        ensures wasm { result.now ≡ self.old.«module» }
    {
        &mut self.module
    }

    /// Whether no section of the module that was read says which features it uses, so that its use of reference types was told by an
    /// export.
    pub fn features_missing(&self) -> bool
        ensures missing { result ≡ self.now.features_missing }
    {
        self.features_missing
    }

    /// The items that the glue file prints, in order.
    pub fn items(&self) -> &[Item]
        ensures items { result.now ≡ self.now.items }
    {
        self.items.as_slice()
    }

    /// The names of the outside, in order of bytes and each once, whether an item uses them or not: those of each target, those that
    /// the target of the call adds, described globals, names that vendors give with and without each of their prefixes, and where imports
    /// are left out also names from modules and, on Node, `inspect` where a class can be inspected.
    pub fn hosts(&self) -> &[Text]
        ensures hosts { result.now ≡ self.now.hosts }
    {
        self.hosts.as_slice()
    }

    /// The computed property keys that the description names, in order of bytes and each once.
    pub fn keys(&self) -> &[Text]
        ensures keys { result.now ≡ self.now.keys }
    {
        self.keys.as_slice()
    }

    // The module's file.
    fn module_file(&self, alloc: Global) -> Result<PlannedFile, EmitFault>
        ensures ok { IfOk result (λ file. (file ≡ record { path = self.now.settings.stem ++ codes "_bg.wasm"; bytes = bytes_of self.now.«module»; is_text = false }) × (too_large self.now.«module» ≡ None)) }
        ensures err { (section : _) → result ≡ Err (EmitFault.TooLarge section) → too_large self.now.«module» ≡ Some section }
    {
        let bytes = emit(alloc, &self.module)?;
        Ok(PlannedFile {
            path: path_of(alloc, &self.settings.stem, "_bg.wasm")?,
            bytes: Seq::from_vec(bytes),
            is_text: false,
        })
    }

    // The glue file.
    fn glue_file(&self, alloc: Global) -> Result<PlannedFile, AllocError>
        ensures file { IfOk result (λ file. file ≡ record { path = self.now.settings.stem ++ codes ".js"; bytes = indented self.now.js; is_text = true }) }
    {
        let text = reset_indentation(alloc, self.js.as_str())?;
        Ok(PlannedFile {
            path: path_of(alloc, &self.settings.stem, ".js")?,
            bytes: bytes_of_text(text),
            is_text: true,
        })
    }

    /// The files to be written, in order. `TooLarge` comes exactly where a section of the module passes 4,294,967,295 bytes,
    /// and names the first.
    pub fn files(&self, alloc: Global) -> Result<Seq<PlannedFile>, EmitFault>
        ensures ok { IfOk result (λ files. (files ≡ plan_of self.now) × (too_large self.now.«module» ≡ None)) }
        ensures err { (section : _) → result ≡ Err (EmitFault.TooLarge section) → too_large self.now.«module» ≡ Some section }
    {
        let mut files = Seq::new(alloc);
        files.push(self.module_file(alloc)?)?;
        files.push(self.glue_file(alloc)?)?;
        Ok(files)
    }
}
