//! Names that the glue file publishes itself.
ghost use Rattle.std.specs.Prelude.{◌≡◌, find, IfOk};
ghost use Rattle.std.specs.Option.{option_copied};
ghost use Rattle.glue_shared.specs.Names.{fixed_public_names, is_one_of, published_names, standing_names, wasm_names};
ghost use Rattle.glue_published.specs.Fixed as spec;
ghost use Rattle.glue_published.specs.Sets.{holds};

use crate::name_set::name_set;
use crate::things::{PublishedThing, published_things};
use glue_faults::Fault;
use glue_shared::{Settings, Target, WasmBindgenAux};
use std::alloc::{AllocError, Global};
use values::{Duplicate, Map, Text};

// Whether the texts of a target publish the name.
fn is_published_name(name: &str, target: &Target) -> bool
    ensures test { result ≡ is_one_of (published_names target.now) name.now }
{
    match target {
        Target::Bundler { .. } => "__wbg_set_wasm" == name,
        Target::Web => "initSync" == name || "default" == name,
        Target::NoModules { .. } => "initSync" == name,
        Target::Node { .. } | Target::Deno | Target::Module | Target::Emscripten => false,
    }
}

// Whether what a target publishes has the name already.
fn is_standing_name(name: &str, target: &Target) -> bool
    ensures test { result ≡ is_one_of (standing_names target.now) name.now }
{
    match target {
        Target::NoModules { .. } => {
            "name" == name
                || "length" == name
                || "arguments" == name
                || "caller" == name
                || "constructor" == name
        }
        Target::Bundler { .. }
        | Target::Web
        | Target::Node { .. }
        | Target::Deno
        | Target::Module
        | Target::Emscripten => false,
    }
}

fn is_wasm_name(name: &str, settings: &Settings) -> bool
    ensures test { result ≡ is_one_of (wasm_names settings.now) name.now }
{
    (settings.debug || settings.export_wasm) && "__wasm" == name
}

// Whether the glue file publishes the name beside the description, or it stands already.
#[tactic(auto, using(crate::proofs::FixedNames::public_any))]
fn is_public_name(name: &str, settings: &Settings) -> bool
    ensures test { result ≡ is_one_of (fixed_public_names settings.now) name.now }
{
    is_published_name(name, &settings.target)
        || is_standing_name(name, &settings.target)
        || is_wasm_name(name, settings)
}

// Whether the glue file publishes the imports that it defines.
fn publishes_imports(target: &Target) -> bool
    ensures test { result ≡ spec.publishes_imports target.now }
{
    matches!(target, Target::Bundler { .. })
}

fn is_fixed_name(settings: &Settings, own: &Map<Text, bool>, name: &Text) -> bool
    ensures test { result ≡ spec.is_fixed_name settings.now (holds own.now) name.now }
{
    is_public_name(name.as_str(), settings)
        || publishes_imports(&settings.target) && own.get(name).is_some()
}

fn begins_fixed(settings: &Settings, own: &Map<Text, bool>, path: &[Text]) -> bool
    ensures test { result ≡ spec.begins_fixed settings.now (holds own.now) path.now }
{
    match path.first() {
        None => false,
        Some(segment) => is_fixed_name(settings, own, segment),
    }
}

impl PublishedThing {
    // Whether it is published: it isn't private, or stands in a namespace.
    fn is_shown(&self) -> bool
        ensures test { result ≡ spec.is_shown self.now }
    {
        !(self.is_private && self.path.len() == 1)
    }
}

fn is_fixed_thing(settings: &Settings, own: &Map<Text, bool>, thing: &PublishedThing) -> bool
    ensures test { result ≡ spec.is_fixed_thing settings.now (holds own.now) thing.now }
{
    thing.is_shown() && begins_fixed(settings, own, thing.path.as_slice())
}

fn first_fixed<'a>(
    settings: &Settings,
    own: &Map<Text, bool>,
    things: &'a [PublishedThing],
) -> Option<&'a PublishedThing>
    ensures first { option_copied result ≡ find (spec.is_fixed_thing settings.now (holds own.now)) things.now }
{
    things
        .iter()
        .find(|thing| is_fixed_thing(settings, own, thing))
}

/// The first thing that is published under a name that the glue file publishes itself, or that stands already where it publishes: one
/// of the target's, `__wasm` where it is asked for, on a bundler one of `own`, the names of the imports that the glue file defines.
/// Want of memory is the only error.
pub fn fixed_thing(
    alloc: Global,
    settings: &Settings,
    own: &[Text],
    aux: &WasmBindgenAux,
) -> Result<Option<Fault>, AllocError>
    ensures fault { IfOk result (λ fault. fault ≡ spec.fixed_thing settings.now own.now aux.now) }
{
    let own = name_set(alloc, own)?;
    let things = published_things(alloc, settings, aux)?;
    match first_fixed(settings, &own, things.as_slice()) {
        None => Ok(None),
        Some(thing) => Ok(Some(Fault::FixedExport {
            name: thing.qualified.copy(alloc)?,
        })),
    }
}
