//! Reading classes, enums, unions, re-exports and slots.
ghost use Rattle.std.specs.Prelude.{◌≡◌, IfOk, None, Some};
ghost use Rattle.serde_json.specs.View.{view};
ghost use Rattle.glue_json.specs.Members as spec;

use crate::counts::Counts;
use crate::fields::{flag, has_keys_alone, list, maybe, optional, required};
use crate::parts::read_triple;
use crate::reads::{LowerFault, Reads};
use glue_shared::{
    AdapterType, AuxDynamicUnion, AuxDynamicUnionVariant, AuxEnum, AuxStringEnum, AuxStruct,
    JsImport, StaticSlot,
};
use serde_json::Value;
use std::alloc::Global;
use values::{Seq, Text};

// The list, or nothing where it has no items.
fn where_items(list: Option<Seq<Text>>) -> Option<Seq<Text>>
    ensures items { result ≡ spec.where_items list }
{
    match list {
        Some(list) => { if list.is_empty() { None } else { Some(list) } }
        None => None,
    }
}

impl Reads for AuxStruct {
    ghost reads = { λ _ d. spec.struct_of d };

    #[tactic(auto, unfolding(crate::specs::Members::struct_of))]
    fn read(alloc: Global, counts: &Counts, value: &Value) -> Result<Self, LowerFault> {
        if !has_keys_alone(
            value,
            &[
                "name",
                "namespace",
                "extends",
                "extends_js_class",
                "extends_js_namespace",
                "comments",
                "inspectable",
                "typescript",
                "private",
            ],
        ) {
            return Err(LowerFault::Failed);
        }
        let name = required(alloc, counts, value, "name")?;
        let namespace = list(alloc, counts, value, "namespace")?;
        let extends = maybe(alloc, counts, value, "extends")?;
        let extends_js_class = maybe(alloc, counts, value, "extends_js_class")?;
        let extends_js_namespace = maybe(alloc, counts, value, "extends_js_namespace")?;
        let comments = maybe(alloc, counts, value, "comments")?;
        let inspectable = flag(alloc, counts, value, "inspectable")?;
        let typescript = optional(alloc, counts, value, "typescript", true)?;
        let private = flag(alloc, counts, value, "private")?;
        Ok(AuxStruct {
            name,
            namespace,
            extends,
            extends_js_class,
            extends_js_namespace: where_items(extends_js_namespace),
            comments,
            inspectable,
            typescript,
            private,
        })
    }
}

/// A variant of an enum: its name, its number and its comment.
impl Reads for (Text, i64, Text) {
    ghost reads = { λ _ d. spec.variant_of d };

    fn read(alloc: Global, counts: &Counts, value: &Value) -> Result<Self, LowerFault> {
        read_triple(alloc, counts, value)
    }
}

impl Reads for AuxEnum {
    ghost reads = { λ _ d. spec.enum_of d };

    #[tactic(auto, unfolding(crate::specs::Members::enum_of))]
    fn read(alloc: Global, counts: &Counts, value: &Value) -> Result<Self, LowerFault> {
        if !has_keys_alone(
            value,
            &[
                "name",
                "namespace",
                "variants",
                "comments",
                "typescript",
                "private",
            ],
        ) {
            return Err(LowerFault::Failed);
        }
        let name = required(alloc, counts, value, "name")?;
        let namespace = list(alloc, counts, value, "namespace")?;
        let variants = list(alloc, counts, value, "variants")?;
        let comments = maybe(alloc, counts, value, "comments")?;
        let typescript = optional(alloc, counts, value, "typescript", true)?;
        let private = flag(alloc, counts, value, "private")?;
        Ok(AuxEnum {
            name,
            namespace,
            variants,
            comments,
            typescript,
            private,
        })
    }
}

impl Reads for AuxStringEnum {
    ghost reads = { λ _ d. spec.string_enum_of d };

    #[tactic(auto, unfolding(crate::specs::Members::string_enum_of))]
    fn read(alloc: Global, counts: &Counts, value: &Value) -> Result<Self, LowerFault> {
        if !has_keys_alone(
            value,
            &["name", "variants", "comments", "typescript", "private"],
        ) {
            return Err(LowerFault::Failed);
        }
        let name = required(alloc, counts, value, "name")?;
        let variants = list(alloc, counts, value, "variants")?;
        let comments = maybe(alloc, counts, value, "comments")?;
        let typescript = optional(alloc, counts, value, "typescript", true)?;
        let private = flag(alloc, counts, value, "private")?;
        Ok(AuxStringEnum {
            name,
            variants,
            comments,
            typescript,
            private,
        })
    }
}

// An object with the one key `literal`.
#[tactic(auto, unfolding(crate::specs::Members::literal_of))]
fn read_literal(
    alloc: Global,
    counts: &Counts,
    value: &Value,
) -> Result<AuxDynamicUnionVariant, LowerFault>
    ensures ok { IfOk result (λ v. spec.literal_of (view value.now) ≡ Some v) }
    ensures failed { result ≡ Err LowerFault.Failed → spec.literal_of (view value.now) ≡ None }
{
    if !has_keys_alone(value, &["literal"]) {
        return Err(LowerFault::Failed);
    }
    let text = required(alloc, counts, value, "literal")?;
    Ok(AuxDynamicUnionVariant::Literal(text))
}

impl Reads for AuxDynamicUnionVariant {
    ghost reads = { λ _ d. spec.union_variant_of d };

    fn read(alloc: Global, counts: &Counts, value: &Value) -> Result<Self, LowerFault> {
        if value.get("literal").is_some() {
            return read_literal(alloc, counts, value);
        }
        Ok(AuxDynamicUnionVariant::Typed(AdapterType::read(alloc, counts, value)?))
    }
}

impl Reads for AuxDynamicUnion {
    ghost reads = { λ _ d. spec.union_of d };

    #[tactic(auto, unfolding(crate::specs::Members::union_of))]
    fn read(alloc: Global, counts: &Counts, value: &Value) -> Result<Self, LowerFault> {
        if !has_keys_alone(
            value,
            &["name", "variants", "comments", "typescript", "private"],
        ) {
            return Err(LowerFault::Failed);
        }
        let name = required(alloc, counts, value, "name")?;
        let variants = list(alloc, counts, value, "variants")?;
        let comments = maybe(alloc, counts, value, "comments")?;
        let typescript = optional(alloc, counts, value, "typescript", true)?;
        let private = flag(alloc, counts, value, "private")?;
        Ok(AuxDynamicUnion {
            name,
            variants,
            comments,
            typescript,
            private,
        })
    }
}

/// A re-export: its name, its import, and whether it is declared in TypeScript.
impl Reads for (Text, JsImport, bool) {
    ghost reads = { λ _ d. spec.reexport_of d };

    #[tactic(auto, unfolding(crate::specs::Members::reexport_of))]
    fn read(alloc: Global, counts: &Counts, value: &Value) -> Result<Self, LowerFault> {
        if !has_keys_alone(value, &["name", "js", "typescript"]) {
            return Err(LowerFault::Failed);
        }
        let name = required(alloc, counts, value, "name")?;
        let js = required(alloc, counts, value, "js")?;
        let typescript = optional(alloc, counts, value, "typescript", true)?;
        Ok((name, js, typescript))
    }
}

impl Reads for StaticSlot {
    ghost reads = { λ _ d. spec.slot_of d };

    fn read(alloc: Global, counts: &Counts, value: &Value) -> Result<Self, LowerFault> {
        match Option::<Text>::read(alloc, counts, value)? {
            None => Ok(StaticSlot::Null),
            Some(text) => Ok(StaticSlot::Text(text)),
        }
    }
}
