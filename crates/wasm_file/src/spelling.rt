//! Writing entries and sections (WebAssembly core specification, 5.5).

ghost use Rattle.std.specs.Prelude.{◌≡◌, ◌++◌, OnOk};
ghost use Rattle.wasm_file.specs.Kinds.{kind_byte};
ghost use Rattle.wasm_file.specs.Spelling.{truth_bit, has_max, limits_flag, limits_bytes, table_bytes, global_type_bytes, tag_bytes, import_type_bytes, item_bytes, custom_bytes, value_bytes, field_bytes, section_bytes};

use crate::entries::{Custom, ExportItem, ImportType, ProducerField, ProducerValue, TableType};
use std::alloc::AllocError;
use wasm_bytes::{Spell, push_number, push_u32, write_framed, write_list, write_name};
use wasm_types::{Limits, TypeId, ValType};

/// The flag of limits: a bit for a maximum, one for a shared one, one for a wide one.
fn limits_flag(limits: &Limits) -> u8
    ensures { result ≡ limits_flag limits.now }
{
    u8::from(limits.max.is_some()) + 2 * u8::from(limits.shared) + 4 * u8::from(limits.wide)
}

/// Appends limits (WebAssembly core specification, 5.3.11).
#[tactic(auto, unfolding(crate::specs::Spelling::limits_bytes))]
pub fn write_limits(out: &mut Vec<u8>, limits: &Limits) -> Result<(), AllocError>
    ensures { OnOk result (out.new.items ≡ out.old.items ++ limits_bytes limits.now) }
{
    out.push(limits_flag(limits))?;
    push_number(out, limits.min)?;
    match limits.max {
        Some(max) => push_number(out, max),
        None => Ok(()),
    }
}

/// Appends the type of a global: a value type, and whether it can be set (WebAssembly core specification, 5.3.14).
#[tactic(auto, unfolding(crate::specs::Spelling::global_type_bytes))]
pub fn write_global_type(out: &mut Vec<u8>, ty: ValType, mutable: bool) -> Result<(), AllocError>
    ensures { OnOk result (out.new.items ≡ out.old.items ++ global_type_bytes ty mutable) }
{
    out.push(ty.code())?;
    out.push(u8::from(mutable))?;
    Ok(())
}

/// Appends a tag: a byte 0 and a type (WebAssembly core specification, 5.3.16).
#[tactic(auto, unfolding(crate::specs::Spelling::tag_bytes))]
pub fn write_tag(out: &mut Vec<u8>, ty: TypeId) -> Result<(), AllocError>
    ensures { OnOk result (out.new.items ≡ out.old.items ++ tag_bytes ty) }
{
    out.push(0)?;
    push_u32(out, ty.0)
}

impl Spell for TableType {
    ghost spelled = { table_bytes };

    #[tactic(auto, unfolding(crate::specs::Spelling::table_bytes))]
    fn write(&self, out: &mut Vec<u8>) -> Result<(), AllocError> {
        out.push(self.elem.code())?;
        write_limits(out, &self.limits)
    }
}

/// The byte that tells what an import asks for.
fn kind_byte(ty: ImportType) -> u8
    ensures { result ≡ kind_byte ty }
{
    match ty {
        ImportType::Func(_) => 0,
        ImportType::Table(_, _) => 1,
        ImportType::Memory(_) => 2,
        ImportType::Global(_, _) => 3,
        ImportType::Tag(_) => 4,
    }
}

impl Spell for ImportType {
    ghost spelled = { import_type_bytes };

    #[tactic(auto, unfolding(crate::specs::Spelling::import_type_bytes))]
    fn write(&self, out: &mut Vec<u8>) -> Result<(), AllocError> {
        out.push(kind_byte(*self))?;
        match self {
            ImportType::Func(ty) => push_u32(out, ty.0),
            ImportType::Table(elem, limits) => {
                let table = TableType {
                    elem: *elem,
                    limits: *limits,
                };
                table.write(out)
            }
            ImportType::Memory(limits) => write_limits(out, limits),
            ImportType::Global(ty, mutable) => write_global_type(out, *ty, *mutable),
            ImportType::Tag(ty) => write_tag(out, *ty),
        }
    }
}

impl Spell for ExportItem {
    ghost spelled = { item_bytes };

    #[tactic(auto, unfolding(crate::specs::Spelling::item_bytes))]
    fn write(&self, out: &mut Vec<u8>) -> Result<(), AllocError> {
        let (kind, index) = match self {
            ExportItem::Func(id) => (0, id.0),
            ExportItem::Table(id) => (1, id.0),
            ExportItem::Memory(id) => (2, id.0),
            ExportItem::Global(id) => (3, id.0),
            ExportItem::Tag(id) => (4, id.0),
        };
        out.push(kind)?;
        push_u32(out, index)
    }
}

impl Spell for ProducerValue {
    ghost spelled = { value_bytes };

    #[tactic(auto, unfolding(crate::specs::Spelling::value_bytes))]
    fn write(&self, out: &mut Vec<u8>) -> Result<(), AllocError> {
        write_name(out, self.name.as_str())?;
        write_name(out, self.version.as_str())
    }
}

impl Spell for ProducerField {
    ghost spelled = { field_bytes };

    #[tactic(auto, unfolding(crate::specs::Spelling::field_bytes))]
    fn write(&self, out: &mut Vec<u8>) -> Result<(), AllocError> {
        write_name(out, self.name.as_str())?;
        write_list(self.values.as_slice(), out)
    }
}

/// Appends a custom section's content: its name and its bytes.
#[tactic(auto, unfolding(crate::specs::Spelling::custom_bytes))]
pub fn write_custom(out: &mut Vec<u8>, custom: &Custom) -> Result<(), AllocError>
    ensures { OnOk result (out.new.items ≡ out.old.items ++ custom_bytes custom.now) }
{
    write_name(out, custom.name.as_str())?;
    out.extend_from_slice(custom.bytes.as_slice())
}

/// Appends a section: its id, and its content behind its length.
#[tactic(auto, unfolding(crate::specs::Spelling::section_bytes))]
pub fn write_section(out: &mut Vec<u8>, id: u8, content: &[u8]) -> Result<(), AllocError>
    ensures { OnOk result (out.new.items ≡ out.old.items ++ section_bytes (id, content.now)) }
{
    out.push(id)?;
    write_framed(out, content)
}
