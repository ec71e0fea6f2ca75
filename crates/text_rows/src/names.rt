//! Calls on names:
//!
//! - `known`: `holds` are those that hold of the name `of`: it is one of the host's for Deno (`on_deno`), one of the host's for Emscripten
//!   (`on_emscripten`), and one that helpers or texts may bind in the module of eight bytes (`fixed`).
//! - `drawn`: what a scope answers to `steps` one behind the other, each the pair of a step (`reserve`, `generate` or `is_bound`) and a name:
//!   `answers`, names and truths.
use crate::compared::{held_difference, list_difference};
use glue_inputs::{CONFIG, EMPTY, settings};
use glue_scope::{IdentScope, Names};
use glue_shared::{EncodeInto, Settings, Target, WasmBindgenAux, is_fixed_name, is_host_name};
use rows::{RowFault, array_at, text_at, text_of};
use serde_json::Value;
use std::alloc::{AllocError, Global};
use values::{Seq, Text};
use wasm_core::{Module, ParseFault};

/// The first difference of a row with one of these calls.
pub fn difference(alloc: Global, row: &Value) -> Result<Option<String>, RowFault> {
    match text_at(row, "call")? {
        "known" => known_difference(alloc, row),
        "drawn" => drawn_difference(alloc, row),
        _ => Err(RowFault::Row),
    }
}

// Whether a host of this target has the name, where nothing is described.
fn is_of_host(alloc: Global, target: Target, name: &str) -> Result<bool, AllocError> {
    let settings = settings(alloc, target, EncodeInto::Test)?;
    let aux = WasmBindgenAux::empty(alloc);
    Ok(is_host_name(name, &settings, &aux))
}

// Whether helpers or texts may bind the name in a module.
fn is_fixed_in(
    module: Result<Module, ParseFault>,
    settings: &Settings,
    name: &str,
) -> Result<bool, RowFault> {
    match module {
        Ok(module) => Ok(is_fixed_name(name, settings, &module)),
        Err(ParseFault::Parse { .. }) => Err(RowFault::Row),
        Err(ParseFault::OutOfMemory) => Err(RowFault::OutOfMemory),
    }
}

// Whether they may in the module of eight bytes.
fn is_fixed(alloc: Global, name: &str) -> Result<bool, RowFault> {
    let settings = settings(alloc, Target::Deno, EncodeInto::Test)?;
    is_fixed_in(Module::parse(alloc, EMPTY, &CONFIG), &settings, name)
}

fn known_difference(alloc: Global, row: &Value) -> Result<Option<String>, RowFault> {
    let name = text_at(row, "of")?;
    let tests = [
        ("on_deno", is_of_host(alloc, Target::Deno, name)?),
        (
            "on_emscripten",
            is_of_host(alloc, Target::Emscripten, name)?,
        ),
        ("fixed", is_fixed(alloc, name)?),
    ];
    held_difference(alloc, row, &tests)
}

fn truth_text(alloc: Global, holds: bool) -> Result<Text, AllocError> {
    match holds {
        true => Text::from_str(alloc, "true"),
        false => Text::from_str(alloc, "false"),
    }
}

// What the scope answers to a step.
fn answer(alloc: Global, scope: &mut IdentScope, step: &str, name: &str) -> Result<Text, RowFault> {
    match step {
        "reserve" => Ok(truth_text(alloc, scope.reserve(name)?)?),
        "generate" => Ok(Text::new(scope.generate(name)?)),
        "is_bound" => Ok(truth_text(alloc, scope.is_bound(name))?),
        _ => Err(RowFault::Row),
    }
}

fn push_answer(
    alloc: Global,
    scope: &mut IdentScope,
    step: &Value,
    answers: &mut Seq<Text>,
) -> Result<(), RowFault> {
    let Value::Array(pair) = step else {
        return Err(RowFault::Row);
    };
    let [step, name] = pair.as_slice() else {
        return Err(RowFault::Row);
    };
    Ok(answers.push(answer(alloc, scope, text_of(step)?, text_of(name)?)?)?)
}

fn push_answers(
    alloc: Global,
    scope: &mut IdentScope,
    steps: &[Value],
    answers: &mut Seq<Text>,
) -> Result<(), RowFault> {
    for step in steps {
        push_answer(alloc, scope, step, answers)?;
    }
    Ok(())
}

fn drawn_difference(alloc: Global, row: &Value) -> Result<Option<String>, RowFault> {
    let steps = array_at(row, "steps")?;
    let mut scope = IdentScope::new(alloc);
    let mut answers = Seq::new(alloc);
    let done = push_answers(alloc, &mut scope, steps, &mut answers);
    drop(scope);
    done?;
    list_difference(alloc, row, "answers", answers.as_slice())
}
