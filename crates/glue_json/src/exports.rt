//! Reading exports.
ghost use Rattle.std.specs.Prelude.{◌≡◌, IfOk, None, Some};
ghost use Rattle.serde_json.specs.View.{view};
ghost use Rattle.glue_json.specs.Members as spec;

use crate::counts::Counts;
use crate::fields::{flag, has_keys_alone, list, maybe, optional, required};
use crate::reads::{LowerFault, Reads};
use glue_shared::{AuxExport, AuxExportKind, AuxExportedMethodKind, AuxReceiverKind};
use serde_json::Value;
use std::alloc::{AllocError, Global};
use values::{Duplicate, Text};

// What an export is, by its name.
fn export_kind(name: &str) -> Option<AuxExportKind>
    ensures named { result ≡ spec.export_kind name.now }
{
    match name {
        "function" => Some(AuxExportKind::Function),
        "function_this" => Some(AuxExportKind::FunctionThis),
        "constructor" => Some(AuxExportKind::Constructor),
        "method" => Some(AuxExportKind::Method(AuxExportedMethodKind::Method)),
        "getter" => Some(AuxExportKind::Method(AuxExportedMethodKind::Getter)),
        "setter" => Some(AuxExportKind::Method(AuxExportedMethodKind::Setter)),
        _ => None,
    }
}

impl Reads for AuxExportKind {
    ghost reads = { λ _ d. spec.export_kind_of d };

    fn read(_: Global, _: &Counts, value: &Value) -> Result<Self, LowerFault> {
        match value.as_str() {
            Some(name) => export_kind(name).ok_or(LowerFault::Failed),
            None => Err(LowerFault::Failed),
        }
    }
}

// How a method takes its object, by its name.
fn receiver_kind(name: &str) -> Option<AuxReceiverKind>
    ensures named { result ≡ spec.receiver_kind name.now }
{
    match name {
        "none" => Some(AuxReceiverKind::None),
        "borrowed" => Some(AuxReceiverKind::Borrowed),
        "owned" => Some(AuxReceiverKind::Owned),
        _ => None,
    }
}

impl Reads for AuxReceiverKind {
    ghost reads = { λ _ d. spec.receiver_kind_of d };

    fn read(_: Global, _: &Counts, value: &Value) -> Result<Self, LowerFault> {
        match value.as_str() {
            Some(name) => receiver_kind(name).ok_or(LowerFault::Failed),
            None => Err(LowerFault::Failed),
        }
    }
}

// Whether an export of this kind stands in no class.
fn is_free(kind: AuxExportKind) -> bool
    ensures test { result ≡ spec.is_free kind }
{
    match kind {
        AuxExportKind::Function | AuxExportKind::FunctionThis => true,
        AuxExportKind::Constructor | AuxExportKind::Method(_) => false,
    }
}

// The text, or else a copy of the name.
fn or_name(alloc: Global, text: Option<Text>, name: &Text) -> Result<Text, AllocError>
    ensures text { IfOk result (λ t. t ≡ spec.text_or text name.now) }
{
    match text {
        Some(text) => Ok(text),
        None => name.copy(alloc),
    }
}

impl Reads for AuxExport {
    ghost reads = { λ _ d. spec.export_of d };

    #[tactic(auto, unfolding(crate::specs::Members::export_of))]
    fn read(alloc: Global, counts: &Counts, value: &Value) -> Result<Self, LowerFault> {
        if !has_keys_alone(
            value,
            &[
                "adapter",
                "kind",
                "name",
                "class",
                "receiver",
                "namespace",
                "args",
                "comments",
                "debug",
                "typescript",
                "jsdoc",
                "variadic",
                "async",
            ],
        ) {
            return Err(LowerFault::Failed);
        }
        let adapter = required(alloc, counts, value, "adapter")?;
        let kind = required(alloc, counts, value, "kind")?;
        let name = required(alloc, counts, value, "name")?;
        let class: Option<Text> = maybe(alloc, counts, value, "class")?;
        if !is_free(kind) && class.is_none() {
            return Err(LowerFault::Failed);
        }
        let receiver = optional(alloc, counts, value, "receiver", AuxReceiverKind::None)?;
        let namespace = list(alloc, counts, value, "namespace")?;
        let args = list(alloc, counts, value, "args")?;
        let comments = maybe(alloc, counts, value, "comments")?;
        let debug = maybe(alloc, counts, value, "debug")?;
        let typescript = optional(alloc, counts, value, "typescript", true)?;
        let jsdoc = flag(alloc, counts, value, "jsdoc")?;
        let variadic = flag(alloc, counts, value, "variadic")?;
        let asyncness = flag(alloc, counts, value, "async")?;
        let debug = or_name(alloc, debug, &name)?;
        Ok(AuxExport {
            adapter,
            kind,
            name,
            class,
            receiver,
            namespace,
            args,
            comments,
            debug,
            typescript,
            jsdoc,
            variadic,
            asyncness,
        })
    }
}
