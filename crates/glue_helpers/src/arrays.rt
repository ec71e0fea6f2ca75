//! The texts of helpers that pass arrays through a memory.
//!
//! Stand-ins: `$name` for the helper's own name, which ends with the memory's place; `$view` for the helper that gives
//! a view of the memory; `$size` for the number of bytes that an element takes; `$table` for the export of the table of
//! references, `$drop` for the export that frees a run of them, `$add` for the helper that adds one.

ghost use Rattle.std.specs.Prelude.{◌≡◌, IfOk, is_ok, true};
ghost use Rattle.glue_marked.specs.Marked.{read_marked};
ghost use Rattle.glue_helpers.specs.Arrays as spec;
ghost use Rattle.glue_helpers.specs.Numbered as names;

use crate::element::{ElementKind, Width, digits_of, letters_of, size_of, unsigned_of};
use crate::naming::{array_view_name, named_item, numbered_text, renamed_item, sized_words};
use glue_words::Item;
use std::alloc::{AllocError, Global};
use values::{Duplicate, Text};

/// `getArrayU8FromWasm0(ptr, len)`: a view of the elements there.
pub const GET_ARRAY: &str = r#"function b@$name(l@ptr, l@len) {
ptr = ptr >>> 0;
return u@$view().subarray(ptr / $size, ptr / $size + len);
}
"#;

/// `passArray8ToWasm0(arg, malloc)` copies an array into memory that it asks for, gives its address, and sets the number
/// of its elements.
pub const PASS_ARRAY: &str = r#"function b@$name(l@arg, l@malloc) {
const l@ptr = malloc(arg.length * $size, $size) >>> 0;
u@$view().set(arg, ptr / $size);
u@WASM_VECTOR_LEN = arg.length;
return ptr;
}
"#;

/// `getArrayJsValueFromWasm0(ptr, len)`: the values of the references there, which are freed.
pub const GET_VALUES_BY_TABLE: &str = r#"function b@$name(l@ptr, l@len) {
ptr = ptr >>> 0;
const l@mem = u@$view();
const l@result = [];
for (let l@i = ptr; i < ptr + 4 * len; i += 4) {
result.push(u@wasm.w@$table.get(mem.getUint32(i, true)));
}
u@wasm.w@$drop(ptr, len);
return result;
}
"#;

/// The same of places of the heap of objects.
pub const GET_VALUES_BY_HEAP: &str = r#"function b@$name(l@ptr, l@len) {
ptr = ptr >>> 0;
const l@mem = u@$view();
const l@result = [];
for (let l@i = ptr; i < ptr + 4 * len; i += 4) {
result.push(u@takeObject(mem.getUint32(i, true)));
}
return result;
}
"#;

/// `passArrayJsValueToWasm0(array, malloc)` writes references of the values into memory that it asks for, gives its
/// address, and sets their number.
pub const PASS_VALUES_BY_TABLE: &str = r#"function b@$name(l@array, l@malloc) {
const l@ptr = malloc(array.length * 4, 4) >>> 0;
for (let l@i = 0; i < array.length; i++) {
const l@add = u@$add(array[i]);
u@$view().setUint32(ptr + 4 * i, add, true);
}
u@WASM_VECTOR_LEN = array.length;
return ptr;
}
"#;

/// The same with places of the heap of objects.
pub const PASS_VALUES_BY_HEAP: &str = r#"function b@$name(l@array, l@malloc) {
const l@ptr = malloc(array.length * 4, 4) >>> 0;
const l@mem = u@$view();
for (let l@i = 0; i < array.length; i++) {
mem.setUint32(ptr + 4 * i, u@addHeapObject(array[i]), true);
}
u@WASM_VECTOR_LEN = array.length;
return ptr;
}
"#;

// The item of a text with a number for the size of elements, and these names for the helper and the memory's view.
fn sized_item(
    alloc: Global,
    name: Text,
    view: Text,
    size: i64,
    text: &str,
) -> Result<Item, AllocError>
    requires reads { is_ok (read_marked text.now) ≡ true }
    ensures item { IfOk result (λ item. item ≡ spec.sized_item name view size text.now) }
{
    let words = sized_words(alloc, size, text)?;
    let own = (Text::from_str(alloc, "$name")?, name.copy(alloc)?);
    let view = (Text::from_str(alloc, "$view")?, view);
    renamed_item(alloc, name, &[own, view], &[], words.as_slice())
}

// The name of the helper that gives elements of a memory.
fn get_array_name(alloc: Global, element: ElementKind, memory: u32) -> Result<Text, AllocError>
    ensures name { IfOk result (λ text. text ≡ names.get_array_name element memory) }
{
    let letters = letters_of(element);
    Ok(Text::new(format!(in alloc; "getArray{letters}FromWasm{memory}")?))
}

// The name of the helper that passes elements of so many bits.
fn pass_array_name(alloc: Global, width: Width, memory: u32) -> Result<Text, AllocError>
    ensures name { IfOk result (λ text. text ≡ names.pass_array_name width memory) }
{
    let digits = digits_of(width);
    Ok(Text::new(format!(in alloc; "passArray{digits}ToWasm{memory}")?))
}

/// The item of `GET_ARRAY` for such elements of the memory at a place. The only error is want of memory, as of the calls
/// below.
#[tactic(auto, using(crate::proofs::ArrayTexts::get_array_reads))]
pub fn get_array(alloc: Global, element: ElementKind, memory: u32) -> Result<Item, AllocError>
    ensures item { IfOk result (λ item. item ≡ spec.get_array element memory) }
{
    let name = get_array_name(alloc, element, memory)?;
    let view = array_view_name(alloc, element, memory)?;
    sized_item(alloc, name, view, size_of(element), GET_ARRAY)
}

/// The item of `PASS_ARRAY` for elements of so many bits and the memory at a place.
#[tactic(auto, using(crate::proofs::ArrayTexts::pass_array_reads))]
pub fn pass_array(alloc: Global, width: Width, memory: u32) -> Result<Item, AllocError>
    ensures item { IfOk result (λ item. item ≡ spec.pass_array width memory) }
{
    let element = unsigned_of(width);
    let name = pass_array_name(alloc, width, memory)?;
    let view = array_view_name(alloc, element, memory)?;
    sized_item(alloc, name, view, size_of(element), PASS_ARRAY)
}

// The item of a text with these names for the helper and the memory's view, and with exports.
fn values_item(
    alloc: Global,
    name: Text,
    view: Text,
    exports: &[(Text, Text)],
    text: &str,
) -> Result<Item, AllocError>
    requires reads { is_ok (read_marked text.now) ≡ true }
    ensures item { IfOk result (λ item. item ≡ spec.values_item name view exports.now text.now) }
{
    let own = (Text::from_str(alloc, "$name")?, name.copy(alloc)?);
    let view = (Text::from_str(alloc, "$view")?, view);
    named_item(alloc, name, &[own, view], exports, text)
}

/// The item of `GET_VALUES_BY_TABLE` for the memory at a place, with the exports of the table and of the function that
/// frees references.
#[tactic(auto, using(crate::proofs::ArrayTexts::get_by_table_reads))]
pub fn get_values_by_table(
    alloc: Global,
    memory: u32,
    table: &str,
    free: &str,
) -> Result<Item, AllocError>
    ensures item { IfOk result (λ item. item ≡ spec.get_values_by_table memory table.now free.now) }
{
    let name = numbered_text(alloc, "getArrayJsValueFromWasm", memory)?;
    let table = (
        Text::from_str(alloc, "$table")?,
        Text::from_str(alloc, table)?,
    );
    let free = (
        Text::from_str(alloc, "$drop")?,
        Text::from_str(alloc, free)?,
    );
    let view = numbered_text(alloc, "getDataViewMemory", memory)?;
    values_item(alloc, name, view, &[table, free], GET_VALUES_BY_TABLE)
}

/// The item of `GET_VALUES_BY_HEAP` for the memory at a place.
#[tactic(auto, using(crate::proofs::ArrayTexts::get_by_heap_reads))]
pub fn get_values_by_heap(alloc: Global, memory: u32) -> Result<Item, AllocError>
    ensures item { IfOk result (λ item. item ≡ spec.get_values_by_heap memory) }
{
    let name = numbered_text(alloc, "getArrayJsValueFromWasm", memory)?;
    let view = numbered_text(alloc, "getDataViewMemory", memory)?;
    values_item(alloc, name, view, &[], GET_VALUES_BY_HEAP)
}

// The item of a text with these names for the helper, the memory's view, and the helper that adds a value to the table.
fn adding_item(
    alloc: Global,
    name: Text,
    view: Text,
    add: Text,
    text: &str,
) -> Result<Item, AllocError>
    requires reads { is_ok (read_marked text.now) ≡ true }
    ensures item { IfOk result (λ item. item ≡ spec.adding_item name view add text.now) }
{
    let own = (Text::from_str(alloc, "$name")?, name.copy(alloc)?);
    let view = (Text::from_str(alloc, "$view")?, view);
    let add = (Text::from_str(alloc, "$add")?, add);
    named_item(alloc, name, &[own, view, add], &[], text)
}

/// The item of `PASS_VALUES_BY_TABLE` for the memory and the table of references at these places.
#[tactic(auto, using(crate::proofs::ArrayTexts::pass_by_table_reads))]
pub fn pass_values_by_table(alloc: Global, memory: u32, table: u32) -> Result<Item, AllocError>
    ensures item { IfOk result (λ item. item ≡ spec.pass_values_by_table memory table) }
{
    let name = numbered_text(alloc, "passArrayJsValueToWasm", memory)?;
    let view = numbered_text(alloc, "getDataViewMemory", memory)?;
    let add = numbered_text(alloc, "addToExternrefTable", table)?;
    adding_item(alloc, name, view, add, PASS_VALUES_BY_TABLE)
}

/// The item of `PASS_VALUES_BY_HEAP` for the memory at a place.
#[tactic(auto, using(crate::proofs::ArrayTexts::pass_by_heap_reads))]
pub fn pass_values_by_heap(alloc: Global, memory: u32) -> Result<Item, AllocError>
    ensures item { IfOk result (λ item. item ≡ spec.pass_values_by_heap memory) }
{
    let name = numbered_text(alloc, "passArrayJsValueToWasm", memory)?;
    let view = numbered_text(alloc, "getDataViewMemory", memory)?;
    values_item(alloc, name, view, &[], PASS_VALUES_BY_HEAP)
}
