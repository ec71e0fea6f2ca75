//! Editing a module.

ghost use Rattle.std.specs.Prelude.{◌≡◌, Some, Err, alloc_error, not, length, IfOk, OnOk, OnErr};
ghost use Rattle.std.specs.List.{list_any, filter, find};
ghost use Rattle.std.specs.Option.{option_copied};
ghost use Rattle.wasm_core.specs.Contents.{IsLive};
ghost use Rattle.wasm_core.specs.Edits.{IsFull};
ghost use Rattle.wasm_core.specs.Edits.{IsLiveItem, IsImportedTag, is_named, without_custom, with_import, own_tag, with_export, without_export, with_func_name, without_start, localized, told_feature};

use crate::assemble::name_func;
use crate::lookup::has_named;
use crate::module::Module;
use crate::types::{ImportKind, Tag};
use std::alloc::{AllocError, Global};
use values::Text;
use wasm_file::{Custom, Export, ExportItem, lists_feature};
use wasm_types::{ExportId, FuncId, ImportId};

impl Module {
    /// Gives an import this module and name. Without memory nothing is changed.
    #[tactic(auto, unfolding(crate::specs::Edits::with_import))]
    pub fn set_import(
        &mut self,
        alloc: Global,
        id: ImportId,
        from: &str,
        name: &str,
    ) -> Result<(), AllocError>
        requires { IsLive self.old.imports id.0 }
        ensures ok { OnOk result (self.new ≡ with_import id.0 from.now name.now self.old) }
        ensures err { OnErr result (self.new ≡ self.old) }
    {
        let module = Text::from_str(alloc, from)?;
        let name = Text::from_str(alloc, name)?;
        if let Some(import) = &mut self.imports[id.0 as usize] {
            import.module = module;
            import.name = name;
        }
        Ok(())
    }

    /// Adds an export, the last one. Without memory nothing is changed; there is none where 4,294,967,295 places of
    /// exports are taken.
    #[tactic(auto, unfolding(crate::specs::Edits::with_export))]
    pub fn add_export(
        &mut self,
        alloc: Global,
        name: &str,
        item: ExportItem,
    ) -> Result<ExportId, AllocError>
        requires { IsLiveItem self.old item }
        ensures place { IfOk result (λ id. id.0 ≡ length self.old.exports) }
        ensures ok { OnOk result (self.new ≡ with_export name.now item self.old) }
        ensures err { OnErr result (self.new ≡ self.old) }
        ensures full { IsFull self.old.exports → result ≡ Err alloc_error }
    {
        let place = self.exports.len();
        if place >= u32::MAX as usize {
            return Err(AllocError);
        }
        let name = Text::from_str(alloc, name)?;
        self.exports.push(Some(Export { name, item }))?;
        Ok(ExportId(place as u32))
    }

    /// Drops an export. Its place stays empty.
    #[tactic(auto, unfolding(crate::specs::Edits::without_export))]
    pub fn delete_export(&mut self, id: ExportId)
        requires { IsLive self.old.exports id.0 }
        ensures { self.new ≡ without_export id.0 self.old }
    {
        self.exports[id.0 as usize] = None;
    }

    /// Gives a function this name. Without memory nothing is changed.
    #[tactic(auto, unfolding(crate::specs::Edits::with_func_name))]
    pub fn set_func_name(&mut self, alloc: Global, id: FuncId, name: &str) -> Result<(), AllocError>
        requires { IsLive self.old.funcs id.0 }
        ensures ok { OnOk result (self.new ≡ with_func_name id.0 name.now self.old) }
        ensures err { OnErr result (self.new ≡ self.old) }
    {
        let name = Text::from_str(alloc, name)?;
        name_func(&mut self.funcs[id.0 as usize], name);
        Ok(())
    }

    /// Takes the start function, and leaves none (WebAssembly core specification, 2.5.9).
    #[tactic(auto, unfolding(crate::specs::Edits::without_start))]
    pub fn take_start(&mut self) -> Option<FuncId>
        ensures answer { result ≡ self.old.start }
        ensures taken { self.new ≡ without_start self.old }
    {
        self.start.take()
    }

    /// Drops the import of a tag. The tag stays in its place, without an import.
    #[tactic(auto, unfolding(crate::specs::Edits::localized))]
    pub fn localize_tag(&mut self, id: ImportId)
        requires { IsImportedTag self.old id.0 }
        ensures { self.new ≡ localized id.0 self.old }
    {
        if let Some(import) = &self.imports[id.0 as usize]
            && let ImportKind::Tag(tag) = import.kind
        {
            forget_import(&mut self.tags[tag.0 as usize]);
            self.imports[id.0 as usize] = None;
        }
    }

    /// Whether the module may use a feature: none where it has no custom section `target_features`, else whether the
    /// first one lists the feature with `+` (WebAssembly tool conventions, target features section).
    pub fn target_feature(&self, name: &str) -> Option<bool>
        ensures { result ≡ told_feature name.now self.now.customs }
    {
        match find_custom(&self.customs, "target_features") {
            Some(custom) => Some(lists_feature(custom.bytes.as_slice(), name)),
            None => None,
        }
    }

    /// The name of the module in its name section, where it has one.
    pub fn name(&self) -> Option<&str>
        ensures { option_copied result ≡ self.now.name }
    {
        match &self.name {
            Some(name) => Some(name.as_str()),
            None => None,
        }
    }

    /// Removes every custom section of this name. It is true exactly where one stood.
    #[tactic(auto, unfolding(crate::specs::Edits::without_custom))]
    pub fn remove_custom(&mut self, name: &str) -> bool
        ensures answer { result ≡ list_any (is_named name.now) self.old.customs }
        ensures removed { self.new ≡ without_custom name.now self.old }
    {
        let stood = has_named(&self.customs, name);
        drop_named(&mut self.customs, name);
        stood
    }
}

/// Makes a tag one of the module's own, where there is one.
fn forget_import(entry: &mut Option<Tag>)
    ensures { entry.new ≡ own_tag (Some entry.old) }
{
    if let Some(tag) = entry {
        tag.import = None;
    }
}

/// The first section of this name, where there is one.
fn find_custom<'a>(customs: &'a [Custom], name: &str) -> Option<&'a Custom>
    ensures { option_copied result ≡ find (is_named name.now) customs.now }
{
    for custom in customs {
        if custom.name.as_str() == name {
            return Some(custom);
        }
    }
    None
}

/// Drops the sections of this name.
fn drop_named(customs: &mut Vec<Custom>, name: &str)
    ensures { customs.new.items ≡ filter (λ c. not (is_named name.now c)) customs.old.items }
{
    customs.retain(|custom| custom.name.as_str() != name);
}
