//! Expressions with statements before them, which declare locals of their own.
ghost use Rattle.std.specs.Prelude.{◌≡◌, ◌++◌, ◌∷◌, [], ℕ, List, true, None, map, is_some, option_map, IfOk, OnOk};
ghost use Rattle.glue_imports.specs.declared.part.Part.TheVariants as p;
ghost use Rattle.glue_imports.specs.Intrinsics as words;
ghost use Rattle.glue_imports.specs.Preludes as spec;
ghost use Rattle.glue_imports.specs.Roots as roots;

use crate::intrinsic::{host, same};
use crate::part::{Expression, Part};
use crate::roots::root_name;
use glue_shared::{Intrinsic, JsImportName, NameMap, Target};
use glue_words::{key, punct};
use std::alloc::{AllocError, Global};
use values::{Duplicate, Seq, Text};

/// An expression without statements before it, where there is one.
pub fn plain(alloc: Global, value: Option<Seq<Part>>) -> Option<Expression>
    ensures expression { result ≡ option_map spec.plain value }
{
    match value {
        None => None,
        Some(value) => Some(Expression {
            locals: Seq::new(alloc),
            prelude: Seq::new(alloc),
            value,
        }),
    }
}

// The name of one local.
pub(crate) fn one_name(alloc: Global, name: &str) -> Result<Seq<Text>, AllocError>
    ensures names { IfOk result (λ names. names ≡ name.now ∷ []) }
{
    let names = vec![in alloc; Text::from_str(alloc, name)?]?;
    Ok(Seq::from_vec(names))
}

// The names of two locals.
fn two_names(alloc: Global, first: &str, second: &str) -> Result<Seq<Text>, AllocError>
    ensures names { IfOk result (λ names. names ≡ first.now ∷ second.now ∷ []) }
{
    let names = vec![in alloc;
        Text::from_str(alloc, first)?,
        Text::from_str(alloc, second)?,
    ]?;
    Ok(Seq::from_vec(names))
}

// One part by itself.
pub(crate) fn one(alloc: Global, part: Part) -> Result<Seq<Part>, AllocError>
    ensures parts { IfOk result (λ parts. parts ≡ part ∷ []) }
{
    Ok(Seq::from_vec(vec![in alloc; part]?))
}

/// Parts behind others.
pub fn joined(front: Seq<Part>, behind: Seq<Part>) -> Result<Seq<Part>, AllocError>
    ensures parts { IfOk result (λ parts. parts ≡ front ++ behind) }
{
    let mut parts = front;
    parts.append(behind)?;
    Ok(parts)
}

// A part in front of others.
fn after(alloc: Global, front: Part, parts: Seq<Part>) -> Result<Seq<Part>, AllocError>
    ensures parts { IfOk result (λ all. all ≡ front ∷ parts) }
{
    joined(one(alloc, front)?, parts)
}

// ---- statements

// `;` and the end of the line behind parts.
pub(crate) fn ended(parts: Seq<Part>) -> Result<Seq<Part>, AllocError>
    ensures parts { IfOk result (λ all. all ≡ parts ++ spec.line_end) }
{
    let mut parts = parts;
    parts.push(Part::Punct(punct::SEMICOLON))?;
    parts.push(Part::LineFeed)?;
    Ok(parts)
}

// `const x = value;`
pub(crate) fn const_line(alloc: Global, value: Part) -> Result<Seq<Part>, AllocError>
    ensures parts { IfOk result (λ parts. parts ≡ spec.const_line value) }
{
    let parts = vec![in alloc;
        Part::Key(key::CONST),
        Part::Space,
        Part::Binding(0),
        Part::Space,
        Part::Punct(punct::ASSIGN),
        Part::Space,
        value,
    ]?;
    ended(Seq::from_vec(parts))
}

// `let result;`
fn let_line(alloc: Global) -> Result<Seq<Part>, AllocError>
    ensures parts { IfOk result (λ parts. parts ≡ spec.let_line) }
{
    let parts = vec![in alloc; Part::Key(key::LET), Part::Space, Part::Binding(0)]?;
    ended(Seq::from_vec(parts))
}

// `result = value`
fn result_is(alloc: Global, value: Seq<Part>) -> Result<Seq<Part>, AllocError>
    ensures parts { IfOk result (λ parts. parts ≡ spec.result_is value) }
{
    let parts = vec![in alloc;
        Part::Local(0),
        Part::Space,
        Part::Punct(punct::ASSIGN),
        Part::Space,
    ]?;
    joined(Seq::from_vec(parts), value)
}

// `try {`
fn try_front(alloc: Global) -> Result<Seq<Part>, AllocError>
    ensures parts { IfOk result (λ parts. parts ≡ spec.try_front) }
{
    let parts = vec![in alloc;
        Part::Key(key::TRY),
        Part::Space,
        Part::Punct(punct::OPEN_BRACE),
    ]?;
    Ok(Seq::from_vec(parts))
}

// `} catch (e) {`
fn catch_front(alloc: Global) -> Result<Seq<Part>, AllocError>
    ensures parts { IfOk result (λ parts. parts ≡ spec.catch_front) }
{
    let parts = vec![in alloc;
        Part::Punct(punct::CLOSE_BRACE),
        Part::Space,
        Part::Key(key::CATCH),
        Part::Space,
        Part::Punct(punct::OPEN_PAREN),
        Part::Binding(1),
        Part::Punct(punct::CLOSE_PAREN),
        Part::Space,
        Part::Punct(punct::OPEN_BRACE),
    ]?;
    Ok(Seq::from_vec(parts))
}

// `}` and the end of the line behind parts.
fn closed(parts: Seq<Part>) -> Result<Seq<Part>, AllocError>
    ensures parts { IfOk result (λ all. all ≡ parts ++ spec.close_line) }
{
    let mut parts = parts;
    parts.push(Part::Punct(punct::CLOSE_BRACE))?;
    parts.push(Part::LineFeed)?;
    Ok(parts)
}

// `let result;`, and a `try` with what stands behind its brace.
fn trying(alloc: Global, behind: Seq<Part>) -> Result<Seq<Part>, AllocError>
    ensures parts { IfOk result (λ parts. parts ≡ spec.let_line ++ (spec.try_front ++ behind)) }
{
    joined(let_line(alloc)?, joined(try_front(alloc)?, behind)?)
}

// The value of `result` in a `try`, with these statements for what is thrown.
fn tried(alloc: Global, value: Seq<Part>, caught: Seq<Part>) -> Result<Seq<Part>, AllocError>
    ensures parts { IfOk result (λ parts. parts ≡ spec.tried value caught) }
{
    let caught = joined(
        catch_front(alloc)?,
        after(alloc, Part::LineFeed, closed(caught)?)?,
    )?;
    let inside = joined(ended(result_is(alloc, value)?)?, caught)?;
    trying(alloc, after(alloc, Part::LineFeed, inside)?)
}

// ---- expressions by the operand's type

// `typeof(x) === "type"`
fn local_type(alloc: Global, name: &str) -> Result<Seq<Part>, AllocError>
    ensures parts { IfOk result (λ parts. parts ≡ spec.local_type name.now) }
{
    let parts = vec![in alloc;
        Part::Key(key::TYPEOF),
        Part::Punct(punct::OPEN_PAREN),
        Part::Local(0),
        Part::Punct(punct::CLOSE_PAREN),
        Part::Space,
        Part::Punct(punct::EQUAL),
        Part::Space,
        Part::Literal(Text::from_str(alloc, name)?),
    ]?;
    Ok(Seq::from_vec(parts))
}

// ` ? x : y`
fn choice(alloc: Global, first: Seq<Part>, second: Seq<Part>) -> Result<Seq<Part>, AllocError>
    ensures parts { IfOk result (λ parts. parts ≡ spec.choice first second) }
{
    let question = vec![in alloc; Part::Space, Part::Punct(punct::QUESTION), Part::Space]?;
    let colon = vec![in alloc; Part::Space, Part::Punct(punct::COLON), Part::Space]?;
    let second = joined(Seq::from_vec(colon), second)?;
    joined(Seq::from_vec(question), joined(first, second)?)
}

// The operand where it has the type, and else `undefined`.
fn typed_value(alloc: Global, wanted: &str, name: &str) -> Result<Expression, AllocError>
    ensures expression { IfOk result (λ e. e ≡ spec.typed_value wanted.now name.now) }
{
    let undefined = one(alloc, host(alloc, "undefined")?)?;
    let chosen = choice(alloc, one(alloc, Part::Local(0))?, undefined)?;
    Ok(Expression {
        locals: one_name(alloc, wanted)?,
        prelude: const_line(alloc, Part::Whole(0))?,
        value: joined(local_type(alloc, name)?, chosen)?,
    })
}

// `typeof(val) === "object" && val !== null`
fn object_test(alloc: Global) -> Result<Expression, AllocError>
    ensures expression { IfOk result (λ e. e ≡ spec.object_test) }
{
    let not_null = vec![in alloc;
        Part::Space,
        Part::Punct(punct::AND),
        Part::Space,
        Part::Local(0),
        Part::Space,
        Part::Punct(punct::UNEQUAL),
        Part::Space,
        Part::Key(key::NULL),
    ]?;
    Ok(Expression {
        locals: one_name(alloc, "val")?,
        prelude: const_line(alloc, Part::Whole(0))?,
        value: joined(local_type(alloc, "object")?, Seq::from_vec(not_null))?,
    })
}

// ---- expressions that are tried

/// Whether the operand is an instance of a value; where the test throws it isn't.
pub fn instance_of(alloc: Global, value: Seq<Part>) -> Result<Expression, AllocError>
    ensures expression { IfOk result (λ e. e ≡ spec.instance_of value) }
{
    let test = vec![in alloc;
        Part::Operand(0),
        Part::Space,
        Part::Key(key::INSTANCEOF),
        Part::Space,
    ]?;
    let test = joined(Seq::from_vec(test), value)?;
    let caught = result_is(alloc, ended(one(alloc, Part::Key(key::FALSE))?)?)?;
    Ok(Expression {
        locals: two_names(alloc, "result", "_")?,
        prelude: tried(alloc, test, caught)?,
        value: one(alloc, Part::Local(0))?,
    })
}

// `result = +a ` of a `try` on one line.
fn number_tried(alloc: Global) -> Result<Seq<Part>, AllocError>
    ensures parts { IfOk result (λ parts. parts ≡ spec.number_tried) }
{
    let number = vec![in alloc; Part::Punct(punct::PLUS), Part::Operand(0), Part::Space]?;
    result_is(alloc, Seq::from_vec(number))
}

// `result = e }` of a `catch` on one line.
fn throw_caught(alloc: Global) -> Result<Seq<Part>, AllocError>
    ensures parts { IfOk result (λ parts. parts ≡ spec.throw_caught) }
{
    let thrown = vec![in alloc; Part::Local(1), Part::Space]?;
    result_is(alloc, closed(Seq::from_vec(thrown))?)
}

// `+a`, or what it throws.
fn number_of(alloc: Global) -> Result<Expression, AllocError>
    ensures expression { IfOk result (λ e. e ≡ spec.number_of) }
{
    let caught = after(alloc, Part::Space, throw_caught(alloc)?)?;
    let caught = joined(catch_front(alloc)?, caught)?;
    let inside = joined(number_tried(alloc)?, caught)?;
    Ok(Expression {
        locals: two_names(alloc, "result", "e")?,
        prelude: trying(alloc, after(alloc, Part::Space, inside)?)?,
        value: one(alloc, Part::Local(0))?,
    })
}

// `if (e instanceof RangeError) {` and a line feed
fn range_test(alloc: Global) -> Result<Seq<Part>, AllocError>
    ensures parts { IfOk result (λ parts. parts ≡ spec.range_test) }
{
    let parts = vec![in alloc;
        Part::Key(key::IF),
        Part::Space,
        Part::Punct(punct::OPEN_PAREN),
        Part::Local(1),
        Part::Space,
        Part::Key(key::INSTANCEOF),
        Part::Space,
        host(alloc, "RangeError")?,
        Part::Punct(punct::CLOSE_PAREN),
        Part::Space,
        Part::Punct(punct::OPEN_BRACE),
        Part::LineFeed,
    ]?;
    Ok(Seq::from_vec(parts))
}

// `} else {`, and `throw e;` and `}` on lines of their own
fn other_errors(alloc: Global) -> Result<Seq<Part>, AllocError>
    ensures parts { IfOk result (λ parts. parts ≡ spec.other_errors) }
{
    let parts = vec![in alloc;
        Part::Punct(punct::CLOSE_BRACE),
        Part::Space,
        Part::Key(key::ELSE),
        Part::Space,
        Part::Punct(punct::OPEN_BRACE),
        Part::LineFeed,
        Part::Key(key::THROW),
        Part::Space,
        Part::Local(1),
    ]?;
    closed(ended(Seq::from_vec(parts))?)
}

// `result = e;` for a `RangeError`, and else it is thrown again.
fn range_errors(alloc: Global) -> Result<Seq<Part>, AllocError>
    ensures parts { IfOk result (λ parts. parts ≡ spec.range_errors) }
{
    let told = result_is(alloc, ended(one(alloc, Part::Local(1))?)?)?;
    joined(range_test(alloc)?, joined(told, other_errors(alloc)?)?)
}

// `a / b`, or the `RangeError` that it throws.
fn checked_quotient(alloc: Global) -> Result<Expression, AllocError>
    ensures expression { IfOk result (λ e. e ≡ spec.checked_quotient) }
{
    let quotient = vec![in alloc;
        Part::Operand(0),
        Part::Space,
        Part::Punct(punct::DIVIDE),
        Part::Space,
        Part::Operand(1),
    ]?;
    Ok(Expression {
        locals: two_names(alloc, "result", "e")?,
        prelude: tried(alloc, Seq::from_vec(quotient), range_errors(alloc)?)?,
        value: one(alloc, Part::Local(0))?,
    })
}

// ---- the count of objects in the object table

// A name of the module's scope.
fn scoped(alloc: Global, name: &str) -> Result<Part, AllocError>
    ensures part { IfOk result (λ part. part ≡ p.Name name.now) }
{
    Ok(Part::Name(Text::from_str(alloc, name)?))
}

// A property by its name.
pub(crate) fn property(alloc: Global, name: &str) -> Result<Part, AllocError>
    ensures part { IfOk result (λ part. part ≡ p.Property name.now) }
{
    Ok(Part::Property(Text::from_str(alloc, name)?))
}

// `let x = value;`
fn let_value(alloc: Global, place: usize, value: Part) -> Result<Seq<Part>, AllocError>
    ensures parts { IfOk result (λ parts. parts ≡ spec.let_value place value) }
{
    let parts = vec![in alloc;
        Part::Key(key::LET),
        Part::Space,
        Part::Binding(place),
        Part::Space,
        Part::Punct(punct::ASSIGN),
        Part::Space,
        value,
    ]?;
    ended(Seq::from_vec(parts))
}

// `let free_count = 0;` and `let next = heap_next;`
fn count_front(alloc: Global) -> Result<Seq<Part>, AllocError>
    ensures parts { IfOk result (λ parts. parts ≡ spec.count_front) }
{
    let first = let_value(alloc, 0, Part::Number(0))?;
    joined(first, let_value(alloc, 1, scoped(alloc, "heap_next")?)?)
}

// `heap.length`
fn heap_length(alloc: Global) -> Result<Seq<Part>, AllocError>
    ensures parts { IfOk result (λ parts. parts ≡ spec.heap_length) }
{
    let parts = vec![in alloc; scoped(alloc, "heap")?, property(alloc, "length")?]?;
    Ok(Seq::from_vec(parts))
}

// `while (next < heap.length) {` and a line feed
fn count_test(alloc: Global) -> Result<Seq<Part>, AllocError>
    ensures parts { IfOk result (λ parts. parts ≡ spec.count_test) }
{
    let front = vec![in alloc;
        Part::Key(key::WHILE),
        Part::Space,
        Part::Punct(punct::OPEN_PAREN),
        Part::Local(1),
        Part::Space,
        Part::Punct(punct::LESS),
        Part::Space,
    ]?;
    let back = vec![in alloc;
        Part::Punct(punct::CLOSE_PAREN),
        Part::Space,
        Part::Punct(punct::OPEN_BRACE),
        Part::LineFeed,
    ]?;
    let test = joined(heap_length(alloc)?, Seq::from_vec(back))?;
    joined(Seq::from_vec(front), test)
}

// `free_count += 1;`
fn free_counted(alloc: Global) -> Result<Seq<Part>, AllocError>
    ensures parts { IfOk result (λ parts. parts ≡ spec.free_counted) }
{
    let parts = vec![in alloc;
        Part::Local(0),
        Part::Space,
        Part::Punct(punct::ADD_ASSIGN),
        Part::Space,
        Part::Number(1),
    ]?;
    ended(Seq::from_vec(parts))
}

// `next = heap[next];`
fn next_free(alloc: Global) -> Result<Seq<Part>, AllocError>
    ensures parts { IfOk result (λ parts. parts ≡ spec.next_free) }
{
    let parts = vec![in alloc;
        Part::Local(1),
        Part::Space,
        Part::Punct(punct::ASSIGN),
        Part::Space,
        scoped(alloc, "heap")?,
        Part::Punct(punct::OPEN_BRACKET),
        Part::Local(1),
        Part::Punct(punct::CLOSE_BRACKET),
    ]?;
    ended(Seq::from_vec(parts))
}

// ` - a`
fn less(alloc: Global, value: Part) -> Result<Seq<Part>, AllocError>
    ensures parts { IfOk result (λ parts. parts ≡ spec.less value) }
{
    let parts = vec![in alloc; Part::Space, Part::Punct(punct::MINUS), Part::Space, value]?;
    Ok(Seq::from_vec(parts))
}

// `heap.length - free_count - 1024 - 4`
fn count_value(alloc: Global) -> Result<Seq<Part>, AllocError>
    ensures parts { IfOk result (λ parts. parts ≡ spec.count_value) }
{
    let fixed = joined(
        less(alloc, Part::Number(1024))?,
        less(alloc, Part::Number(4))?,
    )?;
    let taken = joined(less(alloc, Part::Local(0))?, fixed)?;
    joined(heap_length(alloc)?, taken)
}

// How many objects the object table holds.
fn live_objects(alloc: Global) -> Result<Expression, AllocError>
    ensures expression { IfOk result (λ e. e ≡ spec.live_objects) }
{
    let step = joined(free_counted(alloc)?, closed(next_free(alloc)?)?)?;
    let counted = joined(count_test(alloc)?, step)?;
    Ok(Expression {
        locals: two_names(alloc, "free_count", "next")?,
        prelude: joined(count_front(alloc)?, counted)?,
        value: count_value(alloc)?,
    })
}

// The same, where there is an object table.
fn counted_objects(alloc: Global, externref: bool) -> Result<Option<Expression>, AllocError>
    ensures expression { IfOk result (λ e. e ≡ spec.counted_objects externref) }
{
    if externref {
        Ok(None)
    } else {
        Ok(Some(live_objects(alloc)?))
    }
}

// ---- intrinsics

/// The expression of an intrinsic that has statements before it, where the setting `externref` has this value.
pub fn intrinsic_prelude(
    alloc: Global,
    externref: bool,
    intrinsic: Intrinsic,
) -> Result<Option<Expression>, AllocError>
    ensures expression { IfOk result (λ e. e ≡ spec.intrinsic_prelude externref intrinsic) }
{
    let expression = match intrinsic {
        Intrinsic::IsObject => object_test(alloc)?,
        Intrinsic::NumberGet => typed_value(alloc, "obj", "number")?,
        Intrinsic::StringGet => typed_value(alloc, "obj", "string")?,
        Intrinsic::BooleanGet => typed_value(alloc, "v", "boolean")?,
        Intrinsic::BigIntGetAsI64 => typed_value(alloc, "v", "bigint")?,
        Intrinsic::TryIntoNumber => number_of(alloc)?,
        Intrinsic::CheckedDiv => checked_quotient(alloc)?,
        Intrinsic::ExternrefHeapLiveCount => return counted_objects(alloc, externref),
        _ => return Ok(None),
    };
    Ok(Some(expression))
}

// ---- other kinds

// The text of the note of a cast.
fn cast_note(alloc: Global, comment: &Text) -> Result<Text, AllocError>
    ensures text { IfOk result (λ text. text ≡ spec.cast_note comment.now) }
{
    let mut text = Text::from_str(alloc, "Cast intrinsic for `")?;
    text.push_str(comment.as_str())?;
    text.push_str("`.")?;
    Ok(text)
}

/// The operand as it is, behind a note.
pub fn cast(alloc: Global, bound: bool, comment: &Text) -> Result<Expression, AllocError>
    ensures expression { IfOk result (λ e. e ≡ spec.cast bound comment.now) }
{
    let note = Part::Note(cast_note(alloc, comment)?);
    let prelude = vec![in alloc; note, Part::LineFeed]?;
    Ok(Expression {
        locals: Seq::new(alloc),
        prelude: Seq::from_vec(prelude),
        value: same(alloc, bound)?,
    })
}

// `URL.createObjectURL`
fn object_url(alloc: Global) -> Result<Part, AllocError>
    ensures part { IfOk result (λ part. part ≡ spec.object_url) }
{
    let fields = one_name(alloc, "createObjectURL")?;
    Ok(Part::Host(Text::from_str(alloc, "URL")?, fields))
}

// `"data:application/javascript," + encodeURIComponent(val)`
fn data_url(alloc: Global) -> Result<Seq<Part>, AllocError>
    ensures parts { IfOk result (λ parts. parts ≡ spec.data_url) }
{
    let parts = vec![in alloc;
        Part::Literal(Text::from_str(alloc, "data:application/javascript,")?),
        Part::Space,
        Part::Punct(punct::PLUS),
        Part::Space,
        host(alloc, "encodeURIComponent")?,
        Part::Punct(punct::OPEN_PAREN),
        Part::Local(0),
        Part::Punct(punct::CLOSE_PAREN),
    ]?;
    Ok(Seq::from_vec(parts))
}

// `{ type: "text/javascript" }`
fn script_type(alloc: Global) -> Result<Seq<Part>, AllocError>
    ensures parts { IfOk result (λ parts. parts ≡ spec.script_type) }
{
    let parts = vec![in alloc;
        Part::Punct(punct::OPEN_BRACE),
        Part::Space,
        Part::Member(Text::from_str(alloc, "type")?),
        Part::Punct(punct::COLON),
        Part::Space,
        Part::Literal(Text::from_str(alloc, "text/javascript")?),
        Part::Space,
        Part::Punct(punct::CLOSE_BRACE),
    ]?;
    Ok(Seq::from_vec(parts))
}

// `new Blob([val], `
fn blob_front(alloc: Global) -> Result<Seq<Part>, AllocError>
    ensures parts { IfOk result (λ parts. parts ≡ spec.blob_front) }
{
    let parts = vec![in alloc;
        Part::Key(key::NEW),
        Part::Space,
        host(alloc, "Blob")?,
        Part::Punct(punct::OPEN_PAREN),
        Part::Punct(punct::OPEN_BRACKET),
        Part::Local(0),
        Part::Punct(punct::CLOSE_BRACKET),
        Part::Punct(punct::COMMA),
        Part::Space,
    ]?;
    Ok(Seq::from_vec(parts))
}

// `URL.createObjectURL(new Blob([val], { type: "text/javascript" }))`
fn blob_url(alloc: Global) -> Result<Seq<Part>, AllocError>
    ensures parts { IfOk result (λ parts. parts ≡ spec.blob_url) }
{
    let call = vec![in alloc; object_url(alloc)?, Part::Punct(punct::OPEN_PAREN)]?;
    let mut kind = script_type(alloc)?;
    kind.push(Part::Punct(punct::CLOSE_PAREN))?;
    kind.push(Part::Punct(punct::CLOSE_PAREN))?;
    joined(Seq::from_vec(call), joined(blob_front(alloc)?, kind)?)
}

// `typeof x === "undefined"` and a choice behind it
fn unless_undefined(
    alloc: Global,
    tested: Part,
    first: Seq<Part>,
    second: Seq<Part>,
) -> Result<Seq<Part>, AllocError>
    ensures parts { IfOk result (λ parts. parts ≡ spec.unless_undefined tested first second) }
{
    let test = vec![in alloc;
        Part::Key(key::TYPEOF),
        Part::Space,
        tested,
        Part::Space,
        Part::Punct(punct::EQUAL),
        Part::Space,
        Part::Literal(Text::from_str(alloc, "undefined")?),
    ]?;
    joined(Seq::from_vec(test), choice(alloc, first, second)?)
}

// A URL of a script with this content.
fn link_of(alloc: Global, content: &Text) -> Result<Expression, AllocError>
    ensures expression { IfOk result (λ e. e ≡ spec.link content.now) }
{
    let value = unless_undefined(
        alloc,
        object_url(alloc)?,
        data_url(alloc)?,
        blob_url(alloc)?,
    )?;
    Ok(Expression {
        locals: one_name(alloc, "val")?,
        prelude: const_line(alloc, Part::Literal(content.copy(alloc)?))?,
        value,
    })
}

// A URL of a script with this content, where there is one.
fn link(alloc: Global, content: &Option<Text>) -> Result<Option<Expression>, AllocError>
    ensures expression { IfOk result (λ e. e ≡ option_map spec.link content.now) }
{
    match content {
        None => Ok(None),
        Some(content) => Ok(Some(link_of(alloc, content)?)),
    }
}

// `import.meta.url`
fn module_url(alloc: Global) -> Result<Seq<Part>, AllocError>
    ensures parts { IfOk result (λ parts. parts ≡ spec.module_url) }
{
    let parts = vec![in alloc;
        Part::Key(key::IMPORT),
        property(alloc, "meta")?,
        property(alloc, "url")?,
    ]?;
    Ok(Seq::from_vec(parts))
}

// Whether the glue file of a target is an ES module.
fn has_file_base(target: &Target) -> bool
    ensures test { result ≡ is_some (spec.file_base target.now) }
{
    !matches!(
        target,
        Target::NoModules { .. } | Target::Node { module: false }
    )
}

// `new URL("path", `
fn file_front(alloc: Global, path: &Text) -> Result<Seq<Part>, AllocError>
    ensures parts { IfOk result (λ parts. parts ≡ spec.file_front path.now) }
{
    let parts = vec![in alloc;
        Part::Key(key::NEW),
        Part::Space,
        host(alloc, "URL")?,
        Part::Punct(punct::OPEN_PAREN),
        Part::Literal(path.copy(alloc)?),
        Part::Punct(punct::COMMA),
        Part::Space,
    ]?;
    Ok(Seq::from_vec(parts))
}

// `).toString()`
fn file_back(alloc: Global) -> Result<Seq<Part>, AllocError>
    ensures parts { IfOk result (λ parts. parts ≡ spec.file_back) }
{
    let parts = vec![in alloc;
        Part::Punct(punct::CLOSE_PAREN),
        property(alloc, "toString")?,
        Part::Punct(punct::OPEN_PAREN),
        Part::Punct(punct::CLOSE_PAREN),
    ]?;
    Ok(Seq::from_vec(parts))
}

// `new URL("path", base).toString()`
fn file_link(alloc: Global, path: &Text, base: Seq<Part>) -> Result<Seq<Part>, AllocError>
    ensures parts { IfOk result (λ parts. parts ≡ spec.file_link path.now base) }
{
    joined(file_front(alloc, path)?, joined(base, file_back(alloc)?)?)
}

// A URL of the file at a path, on the targets whose glue file is an ES module.
fn split_link(alloc: Global, target: &Target, path: &Text) -> Result<Option<Expression>, AllocError>
    ensures expression { IfOk result (λ e. e ≡ spec.linked true target.now path.now None) }
{
    if has_file_base(target) {
        let value = file_link(alloc, path, module_url(alloc)?)?;
        Ok(plain(alloc, Some(value)))
    } else {
        Ok(None)
    }
}

/// A URL of the file at a path, where linked modules are split off, and else of a script with its content, where there is one.
pub fn linked(
    alloc: Global,
    split: bool,
    target: &Target,
    path: &Text,
    content: &Option<Text>,
) -> Result<Option<Expression>, AllocError>
    ensures expression { IfOk result (λ e. e ≡ spec.linked split target.now path.now content.now) }
{
    if split {
        split_link(alloc, target, path)
    } else {
        link(alloc, content)
    }
}

/// Whether there is such a URL.
pub fn has_link(split: bool, target: &Target, content: &Option<Text>) -> bool
    ensures test { (path : List ℕ) → result ≡ is_some (spec.linked split target.now path content.now) }
{
    if split {
        has_file_base(target)
    } else {
        content.is_some()
    }
}

// The properties that are read in turn from what may be absent, behind parts.
fn push_chained(alloc: Global, fields: &[Text], parts: &mut Seq<Part>) -> Result<(), AllocError>
    ensures parts { OnOk result (parts.new ≡ parts.old ++ map p.Chained fields.now) }
{
    for field in fields {
        parts.push(Part::Chained(field.copy(alloc)?))?;
    }
    Ok(())
}

/// The value of a name that may be absent, and the properties that are read from it.
pub fn present(
    alloc: Global,
    names: &NameMap,
    name: &JsImportName,
    fields: &[Text],
) -> Result<Seq<Part>, AllocError>
    ensures parts { IfOk result (λ parts. parts ≡ spec.present (roots.root_name names.now name.now) fields.now) }
{
    let mut read = one(alloc, root_name(alloc, names, name)?)?;
    push_chained(alloc, fields, &mut read)?;
    let undefined = one(alloc, host(alloc, "undefined")?)?;
    unless_undefined(alloc, root_name(alloc, names, name)?, undefined, read)
}
