//! From expressions and statements to their words.
ghost use Rattle.std.specs.Prelude.{◌≡◌, ◌++◌, ◌∷◌, [], map, codes, IfOk, OnOk, Some, List, ℕ, false};
ghost use Rattle.glue_tree.specs.FixedWords as f;
ghost use Rattle.glue_tree.specs.Plainly.{plain_expr, plain_exprs, plain_fields, plain_return, plain_stmt, plain_stmts};
ghost use Rattle.glue_tree.specs.Spelling as s;
ghost use Rattle.glue_tree.specs.declared.operand.Position.TheVariants as p;
ghost use Rattle.glue_tree.specs.Term as t;
ghost use Rattle.glue_words.specs.Words.{space, line_feed};
ghost use Rattle.glue_words.specs.Functions.{further_parameters, parameter_words, parenthesised};
ghost use Rattle.glue_words.specs.declared.word.Word.TheVariants as w;

use crate::operand::{Position, begins_with_brace, takes};
use crate::tree::{BinaryOperator, Constant, Expr, Stmt, UnaryOperator};
use glue_words::{Word, key, punct};
use std::alloc::{AllocError, Global};
use values::{Duplicate, Seq, Text};

/// The words of a list of statements, with a line feed between two of them.
pub fn words_of(alloc: Global, body: &[Stmt]) -> Result<Seq<Word>, AllocError>
    ensures words { IfOk result (λ words. words ≡ s.lines_words (plain_stmts body.now)) }
{
    let mut words = Seq::new(alloc);
    push_lines(alloc, body, &mut words)?;
    Ok(words)
}

/// The words of a function with these parameters and statements, from the parameters' parenthesis to the closing brace.
pub fn function_words_of(
    alloc: Global,
    params: &[Text],
    body: &[Stmt],
) -> Result<Seq<Word>, AllocError>
    ensures words { IfOk result (λ words. words ≡ s.function_words params.now (plain_stmts body.now)) }
{
    let mut words = Seq::new(alloc);
    push_params(alloc, params, &mut words)?;
    push_gap(alloc, " ", &mut words)?;
    push_block(alloc, body, &mut words)?;
    Ok(words)
}

fn push_gap(alloc: Global, text: &str, words: &mut Seq<Word>) -> Result<(), AllocError>
    ensures words { OnOk result (words.new ≡ words.old ++ w.Gap text.now ∷ []) }
{
    words.push(Word::Gap(Text::from_str(alloc, text)?))?;
    Ok(())
}

fn push_all(alloc: Global, more: &[Word], words: &mut Seq<Word>) -> Result<(), AllocError>
    ensures words { OnOk result (words.new ≡ words.old ++ more.now) }
{
    for word in more {
        words.push(word.copy(alloc)?)?;
    }
    Ok(())
}

// `, `
fn push_comma(alloc: Global, words: &mut Seq<Word>) -> Result<(), AllocError>
    ensures words { OnOk result (words.new ≡ words.old ++ f.comma ∷ space ∷ []) }
{
    words.push(Word::Punct(punct::COMMA))?;
    push_gap(alloc, " ", words)?;
    Ok(())
}

// `, ` or nothing.
fn push_comma_unless(alloc: Global, is_first: bool, words: &mut Seq<Word>) -> Result<(), AllocError>
    ensures words { OnOk result (words.new ≡ words.old ++ s.comma_unless is_first) }
{
    if is_first {
        Ok(())
    } else {
        push_comma(alloc, words)
    }
}

// A line feed or nothing.
fn push_feed_unless(alloc: Global, is_first: bool, words: &mut Seq<Word>) -> Result<(), AllocError>
    ensures words { OnOk result (words.new ≡ words.old ++ s.feed_unless is_first) }
{
    if is_first {
        Ok(())
    } else {
        push_gap(alloc, "\n", words)
    }
}

// The line feed after statements, if there are any.
fn push_end(alloc: Global, body: &[Stmt], words: &mut Seq<Word>) -> Result<(), AllocError>
    ensures words { OnOk result (words.new ≡ words.old ++ s.feed_unless (s.is_none body.now)) }
{
    match body {
        [] => Ok(()),
        _ => push_gap(alloc, "\n", words),
    }
}

// A local where it is bound.
fn push_bound(alloc: Global, name: &Text, words: &mut Seq<Word>) -> Result<(), AllocError>
    ensures words { OnOk result (words.new ≡ words.old ++ w.LocalBind name.now ∷ []) }
{
    words.push(Word::LocalBind(name.copy(alloc)?))?;
    Ok(())
}

// Each name with a comma before it.
fn push_other_params(alloc: Global, names: &[Text], words: &mut Seq<Word>) -> Result<(), AllocError>
    ensures words { OnOk result (words.new ≡ words.old ++ further_parameters names.now) }
{
    for name in names {
        push_comma(alloc, words)?;
        push_bound(alloc, name, words)?;
    }
    Ok(())
}

// The parameters in their parentheses.
fn push_params(alloc: Global, params: &[Text], words: &mut Seq<Word>) -> Result<(), AllocError>
    ensures words { OnOk result (words.new ≡ words.old ++ parenthesised (parameter_words params.now)) }
{
    words.push(Word::Punct(punct::OPEN_PAREN))?;
    if let [first, others @ ..] = params {
        push_bound(alloc, first, words)?;
        push_other_params(alloc, others, words)?;
    }
    words.push(Word::Punct(punct::CLOSE_PAREN))?;
    Ok(())
}

// A word of punctuation, by its place.
fn push_punct(place: u8, words: &mut Seq<Word>) -> Result<(), AllocError>
    ensures words { OnOk result (words.new ≡ words.old ++ w.Punct place ∷ []) }
{
    words.push(Word::Punct(place))?;
    Ok(())
}

// A keyword, by its place.
fn push_key(place: u8, words: &mut Seq<Word>) -> Result<(), AllocError>
    ensures words { OnOk result (words.new ≡ words.old ++ w.Key place ∷ []) }
{
    words.push(Word::Key(place))?;
    Ok(())
}

// `5n`
fn push_big(value: i64, words: &mut Seq<Word>) -> Result<(), AllocError>
    ensures words { OnOk result (words.new ≡ words.old ++ w.Num value ∷ f.big_mark ∷ []) }
{
    words.push(Word::Num(value))?;
    push_key(key::N, words)?;
    Ok(())
}

// A word that stands for itself.
fn push_word(word: Word, words: &mut Seq<Word>) -> Result<(), AllocError>
    ensures words { OnOk result (words.new ≡ words.old ++ word ∷ []) }
{
    words.push(word)?;
    Ok(())
}

// `wasm.name`
fn push_export(alloc: Global, name: &Text, words: &mut Seq<Word>) -> Result<(), AllocError>
    ensures words { OnOk result (words.new ≡ words.old ++ w.Refer (codes "wasm") false ∷ w.Wasm name.now ∷ []) }
{
    words.push(Word::Refer(Text::from_str(alloc, "wasm")?, false))?;
    words.push(Word::Wasm(name.copy(alloc)?))?;
    Ok(())
}

// `.name`
fn push_field(alloc: Global, name: &Text, words: &mut Seq<Word>) -> Result<(), AllocError>
    ensures words { OnOk result (words.new ≡ words.old ++ f.dot ∷ w.Prop name.now ∷ []) }
{
    words.push(Word::Punct(punct::DOT))?;
    words.push(Word::Prop(name.copy(alloc)?))?;
    Ok(())
}

// `name: `
fn push_label(alloc: Global, name: &Text, words: &mut Seq<Word>) -> Result<(), AllocError>
    ensures words { OnOk result (words.new ≡ words.old ++ w.Prop name.now ∷ f.colon ∷ space ∷ []) }
{
    words.push(Word::Prop(name.copy(alloc)?))?;
    words.push(Word::Punct(punct::COLON))?;
    push_gap(alloc, " ", words)?;
    Ok(())
}

// The word of a keyword that is an expression.
fn constant_word(constant: Constant) -> Word
    ensures word { result ≡ f.constant_word constant }
{
    match constant {
        Constant::Arguments => Word::Key(key::ARGUMENTS),
        Constant::False => Word::Key(key::FALSE),
        Constant::Null => Word::Key(key::NULL),
        Constant::This => Word::Key(key::THIS),
        Constant::True => Word::Key(key::TRUE),
    }
}

// The word of an operator of one operand.
fn unary_word(op: UnaryOperator) -> Word
    ensures word { result ≡ f.unary_word op }
{
    match op {
        UnaryOperator::Increment => Word::Punct(punct::INCREMENT),
        UnaryOperator::Decrement => Word::Punct(punct::DECREMENT),
        UnaryOperator::BitNot => Word::Punct(punct::BIT_NOT),
        UnaryOperator::Not => Word::Punct(punct::NOT),
        UnaryOperator::TypeOf => Word::Key(key::TYPEOF),
    }
}

// The word of an operator of two operands.
fn binary_word(op: BinaryOperator) -> Word
    ensures word { result ≡ f.binary_word op }
{
    match op {
        BinaryOperator::Multiply => Word::Punct(punct::TIMES),
        BinaryOperator::Divide => Word::Punct(punct::DIVIDE),
        BinaryOperator::Remainder => Word::Punct(punct::REMAINDER),
        BinaryOperator::Add => Word::Punct(punct::PLUS),
        BinaryOperator::Subtract => Word::Punct(punct::MINUS),
        BinaryOperator::ShiftLeft => Word::Punct(punct::SHIFT_LEFT),
        BinaryOperator::ShiftRight => Word::Punct(punct::SHIFT_RIGHT),
        BinaryOperator::ShiftUnsigned => Word::Punct(punct::SHIFT_RIGHT_UNSIGNED),
        BinaryOperator::Less => Word::Punct(punct::LESS),
        BinaryOperator::Greater => Word::Punct(punct::GREATER),
        BinaryOperator::AtMost => Word::Punct(punct::AT_MOST),
        BinaryOperator::AtLeast => Word::Punct(punct::AT_LEAST),
        BinaryOperator::InstanceOf => Word::Key(key::INSTANCEOF),
        BinaryOperator::In => Word::Key(key::IN),
        BinaryOperator::Equal => Word::Punct(punct::LOOSE_EQUAL),
        BinaryOperator::StrictEqual => Word::Punct(punct::EQUAL),
        BinaryOperator::Unequal => Word::Punct(punct::LOOSE_UNEQUAL),
        BinaryOperator::StrictUnequal => Word::Punct(punct::UNEQUAL),
        BinaryOperator::BitAnd => Word::Punct(punct::BIT_AND),
        BinaryOperator::BitXor => Word::Punct(punct::BIT_XOR),
        BinaryOperator::BitOr => Word::Punct(punct::BIT_OR),
        BinaryOperator::And => Word::Punct(punct::AND),
        BinaryOperator::Or => Word::Punct(punct::OR),
        BinaryOperator::Coalesce => Word::Punct(punct::COALESCE),
    }
}

// An operator before its operand: `typeof` with a space, and `++` stands behind it.
fn push_before(alloc: Global, op: UnaryOperator, words: &mut Seq<Word>) -> Result<(), AllocError>
    ensures words { OnOk result (words.new ≡ words.old ++ s.before_operand op) }
{
    match op {
        UnaryOperator::Increment => Ok(()),
        UnaryOperator::TypeOf => push_keyword(alloc, key::TYPEOF, words),
        UnaryOperator::Decrement | UnaryOperator::BitNot | UnaryOperator::Not => {
            push_word(unary_word(op), words)
        }
    }
}

// An operator behind its operand: `++` alone.
fn push_behind(op: UnaryOperator, words: &mut Seq<Word>) -> Result<(), AllocError>
    ensures words { OnOk result (words.new ≡ words.old ++ s.behind_operand op) }
{
    match op {
        UnaryOperator::Increment => push_word(unary_word(op), words),
        _ => Ok(()),
    }
}

// A word between two operands, with its spaces.
fn push_between(alloc: Global, word: Word, words: &mut Seq<Word>) -> Result<(), AllocError>
    ensures words { OnOk result (words.new ≡ words.old ++ space ∷ word ∷ space ∷ []) }
{
    push_gap(alloc, " ", words)?;
    push_word(word, words)?;
    push_gap(alloc, " ", words)
}

// `{ `
fn push_open(alloc: Global, words: &mut Seq<Word>) -> Result<(), AllocError>
    ensures words { OnOk result (words.new ≡ words.old ++ f.open_brace ∷ space ∷ []) }
{
    push_punct(punct::OPEN_BRACE, words)?;
    push_gap(alloc, " ", words)
}

// ` }`
fn push_close(alloc: Global, words: &mut Seq<Word>) -> Result<(), AllocError>
    ensures words { OnOk result (words.new ≡ words.old ++ space ∷ f.close_brace ∷ []) }
{
    push_gap(alloc, " ", words)?;
    push_punct(punct::CLOSE_BRACE, words)
}

// `new `
fn push_new(alloc: Global, words: &mut Seq<Word>) -> Result<(), AllocError>
    ensures words { OnOk result (words.new ≡ words.old ++ f.new_word ∷ space ∷ []) }
{
    push_key(key::NEW, words)?;
    push_gap(alloc, " ", words)
}

#[cycle(exprs)]
fn push_expr(alloc: Global, expr: &Expr, words: &mut Seq<Word>) -> Result<(), AllocError>
    ensures words { OnOk result (words.new ≡ words.old ++ s.term_words (plain_expr expr.now)) }
{
    match expr {
        Expr::Num(value) => push_word(Word::Num(*value), words),
        Expr::Big(value) => push_big(*value, words),
        Expr::Str(text) => push_word(Word::Text(text.copy(alloc)?), words),
        Expr::Constant(constant) => push_word(constant_word(*constant), words),
        Expr::Local(name) => push_word(Word::Local(name.copy(alloc)?), words),
        Expr::Module(name) => push_word(Word::Refer(name.copy(alloc)?, false), words),
        Expr::Host(name) => push_word(Word::Host(name.copy(alloc)?, false), words),
        Expr::Wasm(name) => push_export(alloc, name, words),
        Expr::Member(object, name) => push_member(alloc, object.get(), name, words),
        Expr::At(object, index) => {
            push_operand(alloc, Position::Callee, object.get(), words)?;
            push_index(alloc, index.get(), words)
        }
        Expr::Call(f, arguments) => {
            push_operand(alloc, Position::Callee, f.get(), words)?;
            push_arguments(alloc, arguments.as_slice(), words)
        }
        Expr::New(f, arguments) => {
            push_class(alloc, f.get(), words)?;
            push_arguments(alloc, arguments.as_slice(), words)
        }
        Expr::Unary(op, operand) => push_unary(alloc, *op, operand.get(), words),
        Expr::Binary(op, left, right) => {
            push_operand(alloc, Position::Left(*op), left.get(), words)?;
            push_right(alloc, *op, right.get(), words)
        }
        Expr::Cond(test, first, second) => {
            push_operand(alloc, Position::Choice, test.get(), words)?;
            push_branch(alloc, punct::QUESTION, first.get(), words)?;
            push_branch(alloc, punct::COLON, second.get(), words)
        }
        Expr::Record(fields) => push_record(alloc, fields.as_slice(), words),
    }
}

// An expression in parentheses.
#[cycle(exprs)]
fn push_wrapped(alloc: Global, expr: &Expr, words: &mut Seq<Word>) -> Result<(), AllocError>
    ensures words { OnOk result (words.new ≡ words.old ++ parenthesised (s.term_words (plain_expr expr.now))) }
{
    push_punct(punct::OPEN_PAREN, words)?;
    push_expr(alloc, expr, words)?;
    push_punct(punct::CLOSE_PAREN, words)
}

// An operand, in parentheses where its position asks for them.
#[cycle(exprs)]
fn push_operand(
    alloc: Global,
    position: Position,
    operand: &Expr,
    words: &mut Seq<Word>,
) -> Result<(), AllocError>
    ensures words { let e = plain_expr operand.now in
        OnOk result (words.new ≡ words.old ++ s.operand_words position e (s.term_words e)) }
{
    if takes(position, operand) {
        push_expr(alloc, operand, words)
    } else {
        push_wrapped(alloc, operand, words)
    }
}

// `object.name`
#[cycle(exprs)]
fn push_member(
    alloc: Global,
    object: &Expr,
    name: &Text,
    words: &mut Seq<Word>,
) -> Result<(), AllocError>
    ensures words { OnOk result (words.new ≡ words.old ++ s.term_words (t.Field (plain_expr object.now) name.now)) }
{
    push_operand(alloc, Position::Object, object, words)?;
    push_field(alloc, name, words)
}

// `new e`, without its arguments.
#[cycle(exprs)]
fn push_class(alloc: Global, class: &Expr, words: &mut Seq<Word>) -> Result<(), AllocError>
    ensures words { let e = plain_expr class.now in
        OnOk result (words.new ≡ words.old ++ f.new_word ∷ space ∷ s.operand_words p.Class e (s.term_words e)) }
{
    push_new(alloc, words)?;
    push_operand(alloc, Position::Class, class, words)
}

// `[index]`
#[cycle(exprs)]
fn push_index(alloc: Global, index: &Expr, words: &mut Seq<Word>) -> Result<(), AllocError>
    ensures words { let inside = s.term_words (plain_expr index.now) in
        OnOk result (words.new ≡ words.old ++ (f.open_bracket ∷ inside ++ f.close_bracket ∷ [])) }
{
    push_punct(punct::OPEN_BRACKET, words)?;
    push_expr(alloc, index, words)?;
    push_punct(punct::CLOSE_BRACKET, words)
}

/// Appends the words of arguments in their parentheses.
#[cycle(exprs)]
pub fn push_arguments(
    alloc: Global,
    arguments: &[Expr],
    words: &mut Seq<Word>,
) -> Result<(), AllocError>
    ensures words { OnOk result (words.new ≡ words.old ++ s.in_parens (s.parts_of (plain_exprs arguments.now))) }
{
    words.push(Word::Punct(punct::OPEN_PAREN))?;
    let mut is_first = true;
    for argument in arguments {
        push_comma_unless(alloc, is_first, words)?;
        push_expr(alloc, argument, words)?;
        is_first = false;
    }
    words.push(Word::Punct(punct::CLOSE_PAREN))?;
    Ok(())
}

// An operator and its operand.
#[cycle(exprs)]
fn push_unary(
    alloc: Global,
    op: UnaryOperator,
    operand: &Expr,
    words: &mut Seq<Word>,
) -> Result<(), AllocError>
    ensures words { OnOk result (words.new ≡ words.old ++ s.term_words (t.One op (plain_expr operand.now))) }
{
    push_before(alloc, op, words)?;
    push_operand(alloc, Position::Operand(op), operand, words)?;
    push_behind(op, words)
}

// An operator's word and the operand on its right, after a space.
#[cycle(exprs)]
fn push_right(
    alloc: Global,
    op: BinaryOperator,
    operand: &Expr,
    words: &mut Seq<Word>,
) -> Result<(), AllocError>
    ensures words { let e = plain_expr operand.now in
        OnOk result (words.new ≡ words.old ++ space ∷ f.binary_word op ∷ space ∷ s.operand_words (p.Right op) e (s.term_words e)) }
{
    push_between(alloc, binary_word(op), words)?;
    push_operand(alloc, Position::Right(op), operand, words)
}

// `? e` or `: e`, after a space.
#[cycle(exprs)]
fn push_branch(
    alloc: Global,
    mark: u8,
    branch: &Expr,
    words: &mut Seq<Word>,
) -> Result<(), AllocError>
    ensures words { let e = plain_expr branch.now in
        OnOk result (words.new ≡ words.old ++ space ∷ w.Punct mark ∷ space ∷ s.operand_words p.Choice e (s.term_words e)) }
{
    push_between(alloc, Word::Punct(mark), words)?;
    push_operand(alloc, Position::Choice, branch, words)
}

// `{ key: e, .. }`
#[cycle(exprs)]
fn push_record(
    alloc: Global,
    fields: &[(Text, Expr)],
    words: &mut Seq<Word>,
) -> Result<(), AllocError>
    ensures words { OnOk result (words.new ≡ words.old ++ s.term_words (t.Fields (plain_fields fields.now))) }
{
    push_open(alloc, words)?;
    let mut is_first = true;
    for field in fields {
        push_comma_unless(alloc, is_first, words)?;
        push_label(alloc, &field.0, words)?;
        push_expr(alloc, &field.1, words)?;
        is_first = false;
    }
    push_close(alloc, words)
}

/// Appends `const name = `, without what follows it.
pub fn push_const(alloc: Global, name: &Text, words: &mut Seq<Word>) -> Result<(), AllocError>
    ensures words { OnOk result (words.new ≡ words.old ++ s.const_start name.now) }
{
    words.push(Word::Key(key::CONST))?;
    push_gap(alloc, " ", words)?;
    push_bound(alloc, name, words)?;
    push_gap(alloc, " ", words)?;
    words.push(Word::Punct(punct::ASSIGN))?;
    push_gap(alloc, " ", words)?;
    Ok(())
}

// An expression at the start of a statement.
fn push_starting(alloc: Global, expr: &Expr, words: &mut Seq<Word>) -> Result<(), AllocError>
    ensures words { OnOk result (words.new ≡ words.old ++ s.starting_words (plain_expr expr.now)) }
{
    if begins_with_brace(expr) {
        push_wrapped(alloc, expr, words)
    } else {
        push_expr(alloc, expr, words)
    }
}

// `const name = e;`
fn push_let(
    alloc: Global,
    name: &Text,
    value: &Expr,
    words: &mut Seq<Word>,
) -> Result<(), AllocError>
    ensures words { OnOk result (words.new ≡ words.old ++ s.line_words (t.Bind name.now (plain_expr value.now))) }
{
    push_const(alloc, name, words)?;
    push_value(alloc, value, words)
}

// `e;` behind what stands before it in its statement.
fn push_value(alloc: Global, value: &Expr, words: &mut Seq<Word>) -> Result<(), AllocError>
    ensures words { OnOk result (words.new ≡ words.old ++ (s.term_words (plain_expr value.now) ++ f.semicolon ∷ [])) }
{
    push_expr(alloc, value, words)?;
    push_punct(punct::SEMICOLON, words)
}

// `e;` as a statement.
fn push_do(alloc: Global, value: &Expr, words: &mut Seq<Word>) -> Result<(), AllocError>
    ensures words { OnOk result (words.new ≡ words.old ++ s.line_words (t.Run (plain_expr value.now))) }
{
    push_starting(alloc, value, words)?;
    push_punct(punct::SEMICOLON, words)
}

// `let name;`
fn push_unset(alloc: Global, name: &Text, words: &mut Seq<Word>) -> Result<(), AllocError>
    ensures words { OnOk result (words.new ≡ words.old ++ s.line_words (t.Hold name.now)) }
{
    push_key(key::LET, words)?;
    push_gap(alloc, " ", words)?;
    push_bound(alloc, name, words)?;
    push_punct(punct::SEMICOLON, words)
}

// ` = `
fn push_equals(alloc: Global, words: &mut Seq<Word>) -> Result<(), AllocError>
    ensures words { OnOk result (words.new ≡ words.old ++ space ∷ f.equals ∷ space ∷ []) }
{
    push_gap(alloc, " ", words)?;
    push_punct(punct::ASSIGN, words)?;
    push_gap(alloc, " ", words)
}

// `target = e;`
fn push_set(
    alloc: Global,
    target: &Expr,
    value: &Expr,
    words: &mut Seq<Word>,
) -> Result<(), AllocError>
    ensures words { OnOk result (words.new ≡ words.old ++ s.line_words (t.Put (plain_expr target.now) (plain_expr value.now))) }
{
    push_starting(alloc, target, words)?;
    push_equals(alloc, words)?;
    push_value(alloc, value, words)
}

// A keyword and a space.
fn push_keyword(alloc: Global, key: u8, words: &mut Seq<Word>) -> Result<(), AllocError>
    ensures words { OnOk result (words.new ≡ words.old ++ w.Key key ∷ space ∷ []) }
{
    push_key(key, words)?;
    push_gap(alloc, " ", words)
}

// `throw e;` or `return e;`
fn push_leaving(
    alloc: Global,
    key: u8,
    value: &Expr,
    words: &mut Seq<Word>,
) -> Result<(), AllocError>
    ensures words { let value_words = s.term_words (plain_expr value.now) in
        OnOk result (words.new ≡ words.old ++ (w.Key key ∷ space ∷ value_words ++ f.semicolon ∷ [])) }
{
    push_keyword(alloc, key, words)?;
    push_value(alloc, value, words)
}

// `return;` or `return e;`
fn push_return(alloc: Global, value: &Option<Expr>, words: &mut Seq<Word>) -> Result<(), AllocError>
    ensures words { OnOk result (words.new ≡ words.old ++ s.line_words (plain_return value.now)) }
{
    match value {
        None => {
            push_key(key::RETURN, words)?;
            push_punct(punct::SEMICOLON, words)
        }
        Some(value) => push_leaving(alloc, key::RETURN, value, words),
    }
}

// `if (e) `
fn push_test(alloc: Global, test: &Expr, words: &mut Seq<Word>) -> Result<(), AllocError>
    ensures words { OnOk result (words.new ≡ words.old ++ s.after_if (plain_expr test.now) []) }
{
    push_keyword(alloc, key::IF, words)?;
    push_wrapped(alloc, test, words)?;
    push_gap(alloc, " ", words)
}

// ` finally `
fn push_finally(alloc: Global, words: &mut Seq<Word>) -> Result<(), AllocError>
    ensures words { OnOk result (words.new ≡ words.old ++ space ∷ f.finally_word ∷ space ∷ []) }
{
    push_gap(alloc, " ", words)?;
    push_keyword(alloc, key::FINALLY, words)
}

// ` catch (name) `
fn push_catch(alloc: Global, name: &Text, words: &mut Seq<Word>) -> Result<(), AllocError>
    ensures words { OnOk result (words.new ≡ words.old ++ s.catch_start name.now) }
{
    push_gap(alloc, " ", words)?;
    push_keyword(alloc, key::CATCH, words)?;
    push_punct(punct::OPEN_PAREN, words)?;
    push_bound(alloc, name, words)?;
    push_punct(punct::CLOSE_PAREN, words)?;
    push_gap(alloc, " ", words)
}

#[cycle(stmts)]
fn push_line(alloc: Global, line: &Stmt, words: &mut Seq<Word>) -> Result<(), AllocError>
    ensures words { OnOk result (words.new ≡ words.old ++ s.line_words (plain_stmt line.now)) }
{
    match line {
        Stmt::Let(name, value) => push_let(alloc, name, value, words),
        Stmt::Unset(name) => push_unset(alloc, name, words),
        Stmt::Set(target, value) => push_set(alloc, target, value, words),
        Stmt::Do(value) => push_do(alloc, value, words),
        Stmt::If(test, body) => {
            push_test(alloc, test, words)?;
            push_block(alloc, body.as_slice(), words)
        }
        Stmt::Short(test, line) => {
            push_test(alloc, test, words)?;
            push_line(alloc, line.get(), words)
        }
        Stmt::Finally(body, last) => {
            push_keyword(alloc, key::TRY, words)?;
            push_block(alloc, body.as_slice(), words)?;
            push_finally(alloc, words)?;
            push_block(alloc, last.as_slice(), words)
        }
        Stmt::Catch(body, name, last) => {
            push_keyword(alloc, key::TRY, words)?;
            push_block(alloc, body.as_slice(), words)?;
            push_catch(alloc, name, words)?;
            push_block(alloc, last.as_slice(), words)
        }
        Stmt::Throw(value) => push_leaving(alloc, key::THROW, value, words),
        Stmt::Return(value) => push_return(alloc, value, words),
        Stmt::Embedded(_, _, _, own) => push_all(alloc, own.as_slice(), words),
    }
}

// The statements, with a line feed between two of them.
#[cycle(stmts)]
fn push_lines(alloc: Global, body: &[Stmt], words: &mut Seq<Word>) -> Result<(), AllocError>
    ensures words { OnOk result (words.new ≡ words.old ++ s.lines_words (plain_stmts body.now)) }
{
    let mut is_first = true;
    for line in body {
        push_feed_unless(alloc, is_first, words)?;
        push_line(alloc, line, words)?;
        is_first = false;
    }
    Ok(())
}

// The statements in braces, on lines of their own.
#[cycle(stmts)]
fn push_block(alloc: Global, body: &[Stmt], words: &mut Seq<Word>) -> Result<(), AllocError>
    ensures words { OnOk result (words.new ≡ words.old ++ s.block_words (plain_stmts body.now)) }
{
    push_punct(punct::OPEN_BRACE, words)?;
    push_gap(alloc, "\n", words)?;
    push_lines(alloc, body, words)?;
    push_end(alloc, body, words)?;
    push_punct(punct::CLOSE_BRACE, words)
}
