//! The items that define own imports: by the function of an adapter, by a property of a module's name, or, of a memory, by the one that is handed
//! in or a new one.
ghost use Rattle.std.specs.Prelude.{◌≡◌, ◌<◌, ◌^◌, IfOk, Some, pos, is_some, map, true};
ghost use Rattle.std.specs.List.{AllZip, list_all, list_any};
ghost use Rattle.std.specs.Option.{option_copied};
ghost use Rattle.wasm_core.specs.ids.ImportId.{ImportId};
ghost use Rattle.glue_shared.specs.Names as names;
ghost use Rattle.glue_steps.specs.Resolving as resolving;
ghost use Rattle.glue_check.specs.Unbuilt as kinds;
ghost use Rattle.glue_context.specs.DefinedItems as spec;

use crate::function::{adapter_function, words_of};
use crate::handing::{define_function, names_around, throws_of};
use glue_check::memory_of;
use glue_imports::{Basis, function_or_throw, root};
use glue_operands::{spell, usual_form};
use glue_scope::Names;
use glue_shared::{AdapterId, Implementers, IndexedAux, JsImport, Lowered, NameMap, handed_part};
use glue_steps::Indexed;
use glue_words::{Item, Role, Word, WordBuilder, key, print, punct};
use std::alloc::{AllocError, Global};
use values::{Duplicate, Seq, Text};
use wasm_core::{Import, ImportId, Memory};

// The definition of an import by a value.
fn define_value(
    alloc: Global,
    place: ImportId,
    name: &Text,
    value: Seq<Word>,
) -> Result<Item, AllocError>
    ensures item { IfOk result (λ item. item ≡ spec.value_item place.0 name.now value) }
{
    let mut words = WordBuilder::new(alloc);
    words.push(Word::Outer(name.copy(alloc)?))?;
    words.punct(punct::COLON)?;
    words.space()?;
    words.append(value)?;
    words.punct(punct::COMMA)?;
    words.line_feed()?;
    Ok(Item {
        role: Role::Define(place.0),
        words: words.finish(),
    })
}

// ---- by a property of a module's name

// The text of words.
#[tactic(auto, using(crate::proofs::DefinedFacts::one_printed))]
fn text_of(alloc: Global, words: Seq<Word>) -> Result<Text, AllocError>
    ensures text { IfOk result (λ text. text ≡ spec.words_text words) }
{
    let item = Item {
        role: Role::Body,
        words,
    };
    let items = vec![in alloc; item]?;
    Ok(Text::new(print(alloc, items.as_slice())?))
}

// The text of the value that an import names.
fn value_text(alloc: Global, names: &NameMap, js: &JsImport) -> Result<Text, AllocError>
    ensures text { IfOk result (λ text. text ≡ spec.value_text names.now js.now) }
{
    let parts = root(alloc, names, js)?;
    let words = spell(alloc, parts.as_slice())?;
    text_of(alloc, words)
}

// That value where it is a function, and else a function that throws.
fn part_words(alloc: Global, names: &NameMap, js: &JsImport) -> Result<Seq<Word>, AllocError>
    ensures words { IfOk result (λ words. words ≡ spec.part_words names.now js.now) }
{
    let text = value_text(alloc, names, js)?;
    let parts = function_or_throw(alloc, names, js, text)?;
    spell(alloc, parts.as_slice())
}

// ---- by a memory

// A limit as a signed number.
fn number(limit: u64) -> i64
    requires small { limit < 2 ^ 63 }
    ensures number { result ≡ pos limit }
{
    limit as i64
}

// `memory || new WebAssembly.Memory({initial:`
fn memory_front(alloc: Global) -> Result<Seq<Word>, AllocError>
    ensures words { IfOk result (λ words. words ≡ spec.memory_front) }
{
    let mut words = WordBuilder::new(alloc);
    words.push(Word::Refer(Text::from_str(alloc, "memory")?, false))?;
    words.space()?;
    words.punct(punct::OR)?;
    words.space()?;
    words.key(key::NEW)?;
    words.space()?;
    words.push(Word::Host(Text::from_str(alloc, "WebAssembly")?, false))?;
    words.punct(punct::DOT)?;
    words.push(Word::Prop(Text::from_str(alloc, "Memory")?))?;
    words.punct(punct::OPEN_PAREN)?;
    words.punct(punct::OPEN_BRACE)?;
    words.push(Word::Prop(Text::from_str(alloc, "initial")?))?;
    words.punct(punct::COLON)?;
    Ok(words.finish())
}

// A limit, with `n` behind it where addresses have 64 bits.
fn limit_words(alloc: Global, wide: bool, limit: u64) -> Result<Seq<Word>, AllocError>
    requires small { limit < 2 ^ 63 }
    ensures words { IfOk result (λ words. words ≡ spec.limit_words wide limit) }
{
    let mut words = Seq::new(alloc);
    words.push(Word::Num(number(limit)))?;
    if wide {
        words.push(Word::Key(key::N))?;
    }
    Ok(words)
}

// `,maximum:n`, where there is a most.
fn maximum_words(alloc: Global, wide: bool, most: Option<u64>) -> Result<Seq<Word>, AllocError>
    requires small { kinds.is_small most ≡ true }
    ensures words { IfOk result (λ words. words ≡ spec.maximum_words wide most) }
{
    let mut words = WordBuilder::new(alloc);
    if let Some(most) = most {
        words.punct(punct::COMMA)?;
        words.push(Word::Prop(Text::from_str(alloc, "maximum")?))?;
        words.punct(punct::COLON)?;
        words.append(limit_words(alloc, wide, most)?)?;
    }
    Ok(words.finish())
}

// `,address:"i64"`, where addresses have 64 bits.
fn address_words(alloc: Global, wide: bool) -> Result<Seq<Word>, AllocError>
    ensures words { IfOk result (λ words. words ≡ spec.address_words wide) }
{
    let mut words = WordBuilder::new(alloc);
    if wide {
        words.punct(punct::COMMA)?;
        words.push(Word::Prop(Text::from_str(alloc, "address")?))?;
        words.punct(punct::COLON)?;
        words.push(Word::Text(Text::from_str(alloc, "i64")?))?;
    }
    Ok(words.finish())
}

// `})`
fn memory_back(alloc: Global) -> Result<Seq<Word>, AllocError>
    ensures words { IfOk result (λ words. words ≡ spec.memory_back) }
{
    let mut words = WordBuilder::new(alloc);
    words.punct(punct::CLOSE_BRACE)?;
    words.punct(punct::CLOSE_PAREN)?;
    Ok(words.finish())
}

// The memory that is handed in, or a new one with the limits of this one.
fn memory_words(alloc: Global, memory: &Memory) -> Result<Seq<Word>, AllocError>
    requires plain { kinds.is_plain memory.now ≡ true }
    ensures words { IfOk result (λ words. words ≡ spec.memory_words memory.now.limits) }
{
    let mut words = memory_front(alloc)?;
    words.append(limit_words(alloc, memory.limits.wide, memory.limits.min)?)?;
    words.append(maximum_words(alloc, memory.limits.wide, memory.limits.max)?)?;
    words.append(address_words(alloc, memory.limits.wide)?)?;
    words.append(memory_back(alloc)?)?;
    Ok(words)
}

// ---- each import

// The definition of an import by the function of its adapter.
fn define_by_function<N: Names>(
    alloc: Global,
    basis: &Basis<'_>,
    indexed: &Indexed<'_>,
    adapter: AdapterId,
    place: ImportId,
    import: &Import,
) -> Result<Item, AllocError>
    requires stands { resolving.entry_at indexed.now.«module».imports place.0 ≡ Some import.now }
    requires told { is_some (resolving.adapter_steps basis.now.settings.now basis.now.names.now indexed.now adapter) ≡ true }
    ensures item { IfOk result (λ item. spec.IsFunctionItem basis.now.settings.now basis.now.names.now indexed.now place.0 adapter item) }
{
    let throws = throws_of(indexed, adapter, import.kind);
    let around = names_around(alloc, throws)?;
    let none = Seq::new(alloc);
    let function = adapter_function::<N>(
        alloc,
        basis,
        indexed,
        adapter,
        usual_form(),
        &none,
        around.as_slice(),
    )?;
    define_function(alloc, throws, place, &import.name, words_of(function))
}

// The definition of an import for which an adapter stands.
fn define_by_adapter<N: Names>(
    alloc: Global,
    basis: &Basis<'_>,
    indexed: &Indexed<'_>,
    aux: &IndexedAux<'_>,
    adapter: AdapterId,
    place: ImportId,
    import: &Import,
) -> Result<Item, AllocError>
    requires same { aux.now ≡ indexed.now.aux }
    requires stands { resolving.entry_at indexed.now.«module».imports place.0 ≡ Some import.now }
    requires told { is_some (resolving.adapter_steps basis.now.settings.now basis.now.names.now indexed.now adapter) ≡ true }
    ensures item { IfOk result (λ item. spec.IsAdapterItem basis.now.settings.now basis.now.names.now indexed.now place.0 adapter item
        (names.handed_part basis.now.settings.now indexed.now.wit indexed.now.aux adapter)) }
{
    match handed_part(basis.settings, &indexed.lowered().wit, aux, adapter) {
        Some(js) => {
            let value = part_words(alloc, basis.names, js)?;
            define_value(alloc, place, &import.name, value)
        }
        None => { define_by_function::<N>(alloc, basis, indexed, adapter, place, import) }
    }
}

// The definition of an import that brings in a memory.
fn define_memory(
    alloc: Global,
    lowered: &Lowered,
    place: ImportId,
    import: &Import,
) -> Result<Item, AllocError>
    requires stands { resolving.entry_at lowered.now.«module».imports place.0 ≡ Some import.now }
    requires plain { kinds.is_plain_memory (kinds.memory_of lowered.now.«module» import.now.kind) ≡ true }
    ensures item { IfOk result (λ item. spec.IsMemoryItem lowered.now place.0 item) }
{
    match memory_of(&lowered.module, import.kind) {
        Some(memory) => {
            let value = memory_words(alloc, memory)?;
            define_value(alloc, place, &import.name, value)
        }
        None => unreachable!(),
    }
}

// The definition of an import, by what stands for it.
fn define_by<N: Names>(
    alloc: Global,
    basis: &Basis<'_>,
    indexed: &Indexed<'_>,
    aux: &IndexedAux<'_>,
    adapter: Option<AdapterId>,
    place: ImportId,
    import: &Import,
) -> Result<Item, AllocError>
    requires same { aux.now ≡ indexed.now.aux }
    requires stands { resolving.entry_at indexed.now.«module».imports place.0 ≡ Some import.now }
    requires definable { spec.is_definable_by basis.now.settings.now basis.now.names.now indexed.now import.now adapter ≡ true }
    ensures item { IfOk result (λ item. spec.IsDefinedBy basis.now.settings.now basis.now.names.now indexed.now place.0 item adapter) }
{
    match adapter {
        Some(adapter) => {
            define_by_adapter::<N>(alloc, basis, indexed, aux, adapter, place, import)
        }
        None => define_memory(alloc, indexed.lowered(), place, import),
    }
}

// The definition of the import at a place.
fn define_import<N: Names>(
    alloc: Global,
    basis: &Basis<'_>,
    indexed: &Indexed<'_>,
    aux: &IndexedAux<'_>,
    implementers: &Implementers<'_>,
    place: ImportId,
) -> Result<Item, AllocError>
    requires same { aux.now ≡ indexed.now.aux }
    requires pairs { implementers.now ≡ indexed.now.wit.implements }
    requires definable { spec.is_definable basis.now.settings.now basis.now.names.now indexed.now place.0 ≡ true }
    ensures item { IfOk result (λ item. spec.IsDefineItem basis.now.settings.now basis.now.names.now indexed.now place.0 item) }
{
    match indexed.lowered().module.imports().get(place.0 as usize) {
        Some(Some(import)) => define_by::<N>(
            alloc,
            basis,
            indexed,
            aux,
            implementers.get(place),
            place,
            import,
        ),
        _ => unreachable!(),
    }
}

// The definitions of the imports at these places, with what tells of them.
#[tactic(auto, using(crate::proofs::Lists::item_steps))]
fn define_each<N: Names>(
    alloc: Global,
    basis: &Basis<'_>,
    indexed: &Indexed<'_>,
    aux: &IndexedAux<'_>,
    implementers: &Implementers<'_>,
    places: &[ImportId],
) -> Result<Seq<Item>, AllocError>
    requires same { aux.now ≡ indexed.now.aux }
    requires pairs { implementers.now ≡ indexed.now.wit.implements }
    requires definable { list_all (spec.is_definable basis.now.settings.now basis.now.names.now indexed.now) (map (λ (id : ImportId). id.0) places.now) ≡ true }
    ensures items { IfOk result (λ items. AllZip (spec.IsDefineItem basis.now.settings.now basis.now.names.now indexed.now) (map (λ (id : ImportId). id.0) places.now) items) }
{
    let mut items = Seq::new(alloc);
    for place in places {
        items.push(define_import::<N>(alloc, basis, indexed, aux, implementers, *place)?)?;
    }
    Ok(items)
}

/// The definitions of the imports at these places. Want of memory is the only error.
pub(crate) fn define_imports<N: Names>(
    alloc: Global,
    basis: &Basis<'_>,
    indexed: &Indexed<'_>,
    places: &[ImportId],
) -> Result<Seq<Item>, AllocError>
    requires definable { list_all (spec.is_definable basis.now.settings.now basis.now.names.now indexed.now) (map (λ (id : ImportId). id.0) places.now) ≡ true }
    ensures items { IfOk result (λ items. AllZip (spec.IsDefineItem basis.now.settings.now basis.now.names.now indexed.now) (map (λ (id : ImportId). id.0) places.now) items) }
{
    let lowered = indexed.lowered();
    let aux = IndexedAux::new(alloc, &lowered.aux)?;
    let implementers = Implementers::new(alloc, lowered.wit.implements.as_slice())?;
    let items = define_each::<N>(alloc, basis, indexed, &aux, &implementers, places)?;
    Ok(items)
}

// Whether no adapter stands for the import at a place.
fn is_unpaired(implementers: &Implementers<'_>, place: ImportId) -> bool
    ensures test { result ≡ spec.is_unpaired implementers.now place.0 }
{
    implementers.get(place).is_none()
}

// Whether that is so at one of these places.
fn is_any_unpaired(implementers: &Implementers<'_>, places: &[ImportId]) -> bool
    ensures test { result ≡ list_any (λ (id : ImportId). spec.is_unpaired implementers.now id.0) places.now }
{
    places.iter().any(|place| is_unpaired(implementers, *place))
}

/// Whether no adapter stands for one of the imports at these places: among own imports that is the memory that may be handed in. Want of
/// memory is the only error.
pub(crate) fn has_unpaired(
    alloc: Global,
    lowered: &Lowered,
    places: &[ImportId],
) -> Result<bool, AllocError>
    ensures test { IfOk result (λ test. test ≡ list_any (spec.is_unpaired lowered.now.wit.implements) (map (λ (id : ImportId). id.0) places.now)) }
{
    let implementers = Implementers::new(alloc, lowered.wit.implements.as_slice())?;
    Ok(is_any_unpaired(&implementers, places))
}
