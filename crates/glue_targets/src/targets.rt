//! The parts of the glue file that every call of a target has: the frame of imports, and loading.
//!
//! On Deno the imports stand in one object that a function answers, and the module is fetched beside the file. The function
//! takes the first memory where that is imported, and hands on other modules and string constants.
ghost use Rattle.std.specs.Prelude.{◌≡◌, IfOk, is_ok, true};
ghost use Rattle.glue_marked.specs.Marked.{read_marked};
ghost use Rattle.glue_targets.specs.Targets as spec;

use crate::deno;
use glue_marked::{renamed_words, shipped};
use glue_shared::Settings;
use glue_words::{Item, Role, Word};
use std::alloc::{AllocError, Global};
use values::{Duplicate, Seq, Text};

// The stem between two texts.
fn file_name_of(alloc: Global, before: &str, stem: &str, after: &str) -> Result<Text, AllocError>
    ensures named { IfOk result (λ name. name ≡ spec.file_name before.now stem.now after.now) }
{
    let mut name = Text::from_str(alloc, before)?;
    name.push_str(stem)?;
    name.push_str(after)?;
    Ok(name)
}

// The words of a fixed text, with names of files for their stand-ins.
fn fixed_words(alloc: Global, stem: &str, text: &str) -> Result<Seq<Word>, AllocError>
    requires { is_ok (read_marked text.now) ≡ true }
    ensures words { IfOk result (λ words. words ≡ spec.fixed_words stem.now text.now) }
{
    let words = shipped(alloc, text)?;
    let file = (
        Text::from_str(alloc, "$file")?,
        file_name_of(alloc, "", stem, "_bg.wasm")?,
    );
    renamed_words(alloc, &[], &[file], words.as_slice())
}

// The words of the frame's start, where its function takes the memory or not.
#[tactic(auto, using(crate::proofs::FixedTexts::start_reads, crate::proofs::FixedTexts::start_memory_reads))]
fn start_words(alloc: Global, stem: &str, memory: bool) -> Result<Seq<Word>, AllocError>
    ensures words { IfOk result (λ words. words ≡ spec.start_words stem.now memory) }
{
    if memory {
        fixed_words(alloc, stem, deno::FRAME_START_MEMORY)
    } else {
        fixed_words(alloc, stem, deno::FRAME_START)
    }
}

/// The item of the frame up to the first member, which declares `memory` where the first memory is imported. The only error is
/// want of memory, as of the other calls.
pub fn frame_start(alloc: Global, settings: &Settings, memory: bool) -> Result<Item, AllocError>
    ensures item { IfOk result (λ item. item ≡ spec.frame_start settings.now.stem memory) }
{
    let words = start_words(alloc, settings.stem.as_str(), memory)?;
    Ok(Item {
        role: Role::Fixed,
        words,
    })
}

// The module of a number under its path.
#[tactic(auto, using(crate::proofs::FixedTexts::module_reads))]
fn module_words(alloc: Global, number: usize, path: Text) -> Result<Seq<Word>, AllocError>
    ensures words { IfOk result (λ words. words ≡ spec.module_words number path) }
{
    let words = shipped(alloc, deno::FRAME_MODULE)?;
    let name = (
        Text::from_str(alloc, "$import")?,
        Text::new(format!(in alloc; "import{number}")?),
    );
    let given = (Text::from_str(alloc, "$module")?, path);
    renamed_words(alloc, &[name], &[given], words.as_slice())
}

// The other modules under their paths, numbered from 1 on.
fn other_modules(alloc: Global, modules: &[Text]) -> Result<Seq<Word>, AllocError>
    ensures words { IfOk result (λ words. words ≡ spec.modules_words 1 modules.now) }
{
    let mut words = Seq::new(alloc);
    for place in 0..modules.len() {
        words.append(module_words(alloc, place + 1, modules[place].copy(alloc)?)?)?;
    }
    Ok(words)
}

// The line of string constants, where the module imports some.
#[tactic(auto, using(crate::proofs::FixedTexts::strings_read))]
fn string_constants(alloc: Global, strings: bool) -> Result<Seq<Word>, AllocError>
    ensures words { IfOk result (λ words. words ≡ spec.string_constants strings) }
{
    if strings {
        shipped(alloc, deno::FRAME_STRINGS)
    } else {
        Ok(Seq::new(alloc))
    }
}

/// The item of the frame from the end of the members on, which hands on these modules too: as `import1`, `import2` and so on, in
/// their order. Behind them it hands on string constants, where the module imports some.
#[tactic(auto, using(crate::proofs::FixedTexts::modules_read, crate::proofs::FixedTexts::end_reads))]
pub fn frame_end(
    alloc: Global,
    settings: &Settings,
    modules: &[Text],
    strings: bool,
) -> Result<Item, AllocError>
    ensures item { IfOk result (λ item. item ≡ spec.frame_end settings.now.stem modules.now strings) }
{
    let mut words = shipped(alloc, deno::FRAME_MODULES)?;
    let own = file_name_of(alloc, "./", settings.stem.as_str(), "_bg.js")?;
    words.append(module_words(alloc, 0, own)?)?;
    words.append(other_modules(alloc, modules)?)?;
    words.append(string_constants(alloc, strings)?)?;
    words.append(shipped(alloc, deno::FRAME_END)?)?;
    Ok(Item {
        role: Role::Fixed,
        words,
    })
}

// The call of the start function, where the module has one.
#[tactic(auto, using(crate::proofs::FixedTexts::call_reads))]
fn start_call(alloc: Global, starts: bool) -> Result<Seq<Word>, AllocError>
    ensures words { IfOk result (λ words. words ≡ spec.start_call starts) }
{
    if starts {
        shipped(alloc, deno::START_CALL)
    } else {
        Ok(Seq::new(alloc))
    }
}

// The words of loading, where the module imports string constants or not.
#[tactic(auto, using(crate::proofs::FixedTexts::loading_reads, crate::proofs::FixedTexts::loading_strings_reads))]
fn loading_words(alloc: Global, stem: &str, strings: bool) -> Result<Seq<Word>, AllocError>
    ensures words { IfOk result (λ words. words ≡ spec.loading_words stem.now strings) }
{
    if strings {
        fixed_words(alloc, stem, deno::LOADING_STRINGS)
    } else {
        fixed_words(alloc, stem, deno::LOADING)
    }
}

/// The item that loads the module, which is told of string constants where it imports some, and calls its start function where it has one.
pub fn loading_item(
    alloc: Global,
    settings: &Settings,
    strings: bool,
    starts: bool,
) -> Result<Item, AllocError>
    ensures item { IfOk result (λ item. item ≡ spec.loading_item settings.now.stem strings starts) }
{
    let mut words = loading_words(alloc, settings.stem.as_str(), strings)?;
    words.append(start_call(alloc, starts)?)?;
    Ok(Item {
        role: Role::Loading,
        words,
    })
}
