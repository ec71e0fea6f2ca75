//! What imports give of the module itself: its first memory, and its tables.
ghost use Rattle.std.specs.Prelude.{◌≡◌, ◌++◌, ◌<◌, ◌^◌, ℕ, pos, IfOk, OnOk, Some, length};
ghost use Rattle.glue_imports.specs.Given as spec;
ghost use Rattle.glue_imports.specs.Preludes.{line_end};

use crate::intrinsic::host;
use crate::part::{Expression, Part};
use crate::prelude::{const_line, ended, one, one_name, plain, property};
use glue_shared::{AuxImport, Intrinsic, Lowered, StaticSlot, first_memory, live_item, table_item};
use glue_words::{key, punct};
use std::alloc::{AllocError, Global};
use values::{Duplicate, Seq, Text};
use wasm_core::ExportItem;

/// What an expression goes by of the module and its description.
#[derive(Clone, Copy)]
pub struct Given<'a> {
    /// The name of the export that gives the import's item, or the empty one where it gives none.
    pub export: &'a str,
    /// The slots of the table of references from place 1028 on, each with its text or without one.
    pub slots: &'a [StaticSlot],
}

/// The first place of the table of references behind the constants.
const FIRST_SLOT: usize = 1028;

/// How many places a table has at most.
const MOST_PLACES: usize = 4_294_967_296;

/// The item of the module that an import gives, where it stands: the first memory, the table of functions, or that of references.
pub fn given_item(lowered: &Lowered, import: &AuxImport) -> Option<ExportItem>
    ensures item { result ≡ spec.given_item lowered.now import.now }
{
    let Lowered { module, aux, .. } = lowered;
    let named = match import {
        AuxImport::Intrinsic(Intrinsic::Memory) => first_memory(module),
        AuxImport::Intrinsic(Intrinsic::FunctionTable) => table_item(aux.function_table),
        AuxImport::Intrinsic(Intrinsic::InitExternrefTable) => table_item(aux.externref_table),
        _ => None,
    };
    live_item(module, named)
}

/// Whether an import gives an item of the module.
pub fn gives_item(import: &AuxImport) -> bool
    ensures test { result ≡ spec.gives_item import.now }
{
    matches!(
        import,
        AuxImport::Intrinsic(
            Intrinsic::Memory | Intrinsic::FunctionTable | Intrinsic::InitExternrefTable
        )
    )
}

// `table.set(place, value)`
fn set_slot(alloc: Global, place: usize, value: Part) -> Result<Seq<Part>, AllocError>
    requires small { place < 2 ^ 63 }
    ensures parts { IfOk result (λ parts. parts ≡ spec.set_slot place value) }
{
    let parts = vec![in alloc;
        Part::Local(0),
        property(alloc, "set")?,
        Part::Punct(punct::OPEN_PAREN),
        Part::Number(place as i64),
        Part::Punct(punct::COMMA),
        Part::Space,
        value,
        Part::Punct(punct::CLOSE_PAREN),
    ]?;
    Ok(Seq::from_vec(parts))
}

// The same as a statement behind others.
fn push_set(
    alloc: Global,
    place: usize,
    value: Part,
    statements: &mut Seq<Part>,
) -> Result<(), AllocError>
    requires small { place < 2 ^ 63 }
    ensures pushed { OnOk result (statements.new ≡ statements.old ++ (spec.set_slot place value ++ line_end)) }
{
    statements.append(ended(set_slot(alloc, place, value)?)?)
}

// `const table = wasm.name;`, and the constants but the last.
fn constants_set(alloc: Global, export: &str) -> Result<Seq<Part>, AllocError>
    ensures parts { IfOk result (λ parts. parts ≡ spec.constants_set export.now) }
{
    let mut statements = const_line(alloc, Part::Export(Text::from_str(alloc, export)?))?;
    push_set(alloc, 0, host(alloc, "undefined")?, &mut statements)?;
    push_set(alloc, 1024, host(alloc, "undefined")?, &mut statements)?;
    push_set(alloc, 1025, Part::Key(key::NULL), &mut statements)?;
    push_set(alloc, 1026, Part::Key(key::TRUE), &mut statements)?;
    Ok(statements)
}

// Puts the texts of slots behind the statements and the last expression: that becomes a statement, and the last text is the last expression.
fn push_slots(
    alloc: Global,
    slots: &[StaticSlot],
    first: Seq<Part>,
    statements: &mut Seq<Part>,
) -> Result<Seq<Part>, AllocError>
    requires few { length slots.now < 2 ^ 32 }
    ensures last { IfOk result (λ last. last ≡ spec.last_of first (spec.texts_from 1028 slots.now)) }
    ensures pushed { OnOk result (statements.new ≡ statements.old ++ spec.statements first (spec.texts_from 1028 slots.now)) }
{
    let mut last = first;
    let mut place = FIRST_SLOT;
    for slot in slots {
        if let StaticSlot::Text(text) = slot {
            let set = set_slot(alloc, place, Part::Literal(text.copy(alloc)?))?;
            statements.append(ended(last)?)?;
            last = set;
        }
        place += 1;
    }
    Ok(last)
}

// The table of references with its constants and texts, where there are fewer slots than places.
fn filled_table(alloc: Global, given: &Given<'_>) -> Result<Expression, AllocError>
    ensures expression { IfOk result (λ e. e ≡ spec.filled_table (spec.handed_in given.now)) }
{
    if given.slots.len() >= MOST_PLACES {
        return Err(AllocError);
    }
    let mut prelude = constants_set(alloc, given.export)?;
    let first = set_slot(alloc, FIRST_SLOT - 1, Part::Key(key::FALSE))?;
    let value = push_slots(alloc, given.slots, first, &mut prelude)?;
    Ok(Expression {
        locals: one_name(alloc, "table")?,
        prelude,
        value,
    })
}

// `wasm.name`
fn exported(alloc: Global, name: &str) -> Result<Option<Expression>, AllocError>
    ensures expression { IfOk result (λ e. e ≡ Some (spec.exported name.now)) }
{
    Ok(plain(
        alloc,
        Some(one(alloc, Part::Export(Text::from_str(alloc, name)?))?),
    ))
}

// The table of references, filled, where there is one.
fn table_filled(
    alloc: Global,
    externref: bool,
    given: &Given<'_>,
) -> Result<Option<Expression>, AllocError>
    ensures expression { IfOk result (λ e. e ≡ spec.table_filled externref (spec.handed_in given.now)) }
{
    if externref {
        Ok(Some(filled_table(alloc, given)?))
    } else {
        Ok(None)
    }
}

/// The expression of an intrinsic that gives an item of the module. Want of memory is the only error; as many slots as a table has places, and
/// more, come to it too.
pub fn item_expression(
    alloc: Global,
    externref: bool,
    given: &Given<'_>,
    intrinsic: Intrinsic,
) -> Result<Option<Expression>, AllocError>
    ensures expression { IfOk result (λ e. e ≡ spec.item_expression externref (spec.handed_in given.now) intrinsic) }
{
    match intrinsic {
        Intrinsic::Memory | Intrinsic::FunctionTable => exported(alloc, given.export),
        Intrinsic::InitExternrefTable => table_filled(alloc, externref, given),
        _ => Ok(None),
    }
}
