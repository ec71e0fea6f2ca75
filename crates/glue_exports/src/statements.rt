//! The words of the statements that put something in its place, and of the clauses that publish it.
ghost use Rattle.std.specs.Prelude.{◌≡◌, ◌++◌, ◌∷◌, [], IfOk, OnOk};
ghost use Rattle.glue_targets.specs.RoleWords as spec;
ghost use Rattle.glue_words.specs.Words.{space};
ghost use Rattle.glue_words.specs.declared.word.Word.TheVariants as w;

use glue_words::{Word, WordBuilder, is_valid_ident, key, punct};
use std::alloc::{AllocError, Global};
use values::{Duplicate, Seq, Text};

// Adds `.name`, or `["name"]` where the name is no identifier.
fn push_access(words: &mut WordBuilder, name: &str) -> Result<(), AllocError>
    ensures ok { OnOk result (words.new ≡ words.old ++ spec.access_words name.now) }
{
    if is_valid_ident(name) {
        words.punct(punct::DOT)?;
        words.prop(name)
    } else {
        words.punct(punct::OPEN_BRACKET)?;
        words.text(name)?;
        words.punct(punct::CLOSE_BRACKET)
    }
}

// Adds the accesses of the segments after the first.
fn push_chain(words: &mut WordBuilder, path: &[Text]) -> Result<(), AllocError>
    ensures ok { OnOk result (words.new ≡ words.old ++ spec.access_chain path.now) }
{
    if let [_, rest @ ..] = path {
        for segment in rest {
            push_access(words, segment.as_str())?;
        }
    }
    Ok(())
}

// Adds the end of a statement.
fn push_end(words: &mut WordBuilder) -> Result<(), AllocError>
    ensures ok { OnOk result (words.new ≡ words.old ++ spec.statement_end) }
{
    words.punct(punct::SEMICOLON)?;
    words.line_feed()
}

// Adds the operator of an assignment.
fn push_operator(words: &mut WordBuilder, operator: u8) -> Result<(), AllocError>
    ensures ok { OnOk result (words.new ≡ words.old ++ space ∷ w.Punct operator ∷ space ∷ []) }
{
    words.space()?;
    words.punct(operator)?;
    words.space()
}

// Adds ` = {};`, with this operator.
fn push_object(words: &mut WordBuilder, operator: u8) -> Result<(), AllocError>
    ensures ok { OnOk result (words.new ≡ words.old ++ spec.assigned_words operator spec.empty_object) }
{
    push_operator(words, operator)?;
    words.punct(punct::OPEN_BRACE)?;
    words.punct(punct::CLOSE_BRACE)?;
    push_end(words)
}

/// `const name = {};`, exported or not. Want of memory is the only error.
pub(crate) fn root_words(
    alloc: Global,
    exported: bool,
    name: &Text,
) -> Result<Seq<Word>, AllocError>
    ensures words { IfOk result (λ words. words ≡ spec.root_words exported name.now) }
{
    let mut words = WordBuilder::new(alloc);
    if exported {
        words.key(key::EXPORT)?;
        words.space()?;
    }
    words.key(key::CONST)?;
    words.space()?;
    words.bind(name.as_str())?;
    push_object(&mut words, punct::ASSIGN)?;
    Ok(words.finish())
}

/// `root.path = {};`, with this operator. Want of memory is the only error.
pub(crate) fn inner_words(
    alloc: Global,
    operator: u8,
    path: &[Text],
    root: &Word,
) -> Result<Seq<Word>, AllocError>
    ensures words { IfOk result (λ words. words ≡ spec.inner_words operator path.now root.now) }
{
    let mut words = WordBuilder::new(alloc);
    words.push(root.copy(alloc)?)?;
    push_chain(&mut words, path)?;
    push_object(&mut words, operator)?;
    Ok(words.finish())
}

/// `root.path = name;`. Want of memory is the only error.
pub(crate) fn assign_words(
    alloc: Global,
    path: &[Text],
    name: Word,
    root: &Word,
) -> Result<Seq<Word>, AllocError>
    ensures words { IfOk result (λ words. words ≡ spec.assign_words path.now name root.now) }
{
    let mut words = WordBuilder::new(alloc);
    words.push(root.copy(alloc)?)?;
    push_chain(&mut words, path)?;
    push_operator(&mut words, punct::ASSIGN)?;
    words.push(name)?;
    push_end(&mut words)?;
    Ok(words.finish())
}

/// `export { name as public };`. Want of memory is the only error.
pub(crate) fn clause_words(
    alloc: Global,
    public: &Text,
    name: Word,
) -> Result<Seq<Word>, AllocError>
    ensures words { IfOk result (λ words. words ≡ spec.clause_words public.now name) }
{
    let mut words = WordBuilder::new(alloc);
    words.key(key::EXPORT)?;
    words.space()?;
    words.punct(punct::OPEN_BRACE)?;
    words.space()?;
    words.push(name)?;
    words.space()?;
    words.key(key::AS)?;
    words.space()?;
    words.outer(public.as_str())?;
    words.space()?;
    words.punct(punct::CLOSE_BRACE)?;
    push_end(&mut words)?;
    Ok(words.finish())
}
