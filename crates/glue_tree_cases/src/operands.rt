//! Where operands stand in parentheses: expressions in each position, beside the text that ECMAScript's grammar asks for.
use crate::compare::assert_told;
use crate::form::{Form, expr_of};
use glue_inputs::printed;
use glue_tree::{BinaryOperator, Stmt, UnaryOperator, words_of};
use std::alloc::{AllocError, Global};
use std::slice;

const X: Form = Form::Local("x");

const Y: Form = Form::Local("y");

const A: Form = Form::Local("a");

const B: Form = Form::Local("b");

const C: Form = Form::Local("c");

const FIVE: Form = Form::Number(5);

const MINUS_FIVE: Form = Form::Number(-5);

// `-5n`
const BIG: Form = Form::Big(-5);

// `f(a)`
const CALL: Form = Form::Call(&Form::Local("f"), &[A]);

// `f(a).b`
const OF_CALL: Form = Form::Member(&CALL, "b");

// `new C()`
const OBJECT: Form = Form::New(&Form::Local("C"));

// `a++`
const COUNTED: Form = Form::Unary(UnaryOperator::Increment, &A);

// `!a`
const NOT: Form = Form::Unary(UnaryOperator::Not, &A);

// `a ? b : c`
const CHOICE: Form = Form::Cond(&A, &B, &C);

// `{ k: a }`
const RECORD: Form = Form::Record("k", &A);

// `a * b`
const PRODUCT: Form = Form::Binary(BinaryOperator::Multiply, &A, &B);

// `a / b`
const QUOTIENT: Form = Form::Binary(BinaryOperator::Divide, &A, &B);

// `a + b`
const SUM: Form = Form::Binary(BinaryOperator::Add, &A, &B);

// `a && b`
const BOTH: Form = Form::Binary(BinaryOperator::And, &A, &B);

// `a || b`
const EITHER: Form = Form::Binary(BinaryOperator::Or, &A, &B);

// `a | b`
const BITS: Form = Form::Binary(BinaryOperator::BitOr, &A, &B);

// `a ?? b`
const COALESCED: Form = Form::Binary(BinaryOperator::Coalesce, &A, &B);

// An expression, and the text of the statement that it is.
const EXPRESSIONS: &[(Form, &str)] = &[
    // of operands that are operators, those that bind more loosely
    (
        Form::Binary(BinaryOperator::Multiply, &SUM, &C),
        "(a + b) * c;",
    ),
    (
        Form::Binary(
            BinaryOperator::Subtract,
            &A,
            &Form::Binary(BinaryOperator::Subtract, &B, &C),
        ),
        "a - (b - c);",
    ),
    (
        Form::Binary(
            BinaryOperator::StrictEqual,
            &Form::Unary(UnaryOperator::TypeOf, &A),
            &Form::Str("number"),
        ),
        "typeof a === \"number\";",
    ),
    (
        Form::Member(&Form::Cond(&A, &Form::Null, &FIVE), "b"),
        "(a ? null : 5).b;",
    ),
    // what is taken of an expression, called and made
    (Form::Member(&FIVE, "x"), "(5).x;"),
    (Form::Member(&MINUS_FIVE, "x"), "(-5).x;"),
    (Form::Member(&BIG, "x"), "(-5n).x;"),
    (Form::Member(&OF_CALL, "x"), "f(a).b.x;"),
    (Form::Member(&OBJECT, "x"), "new C().x;"),
    (Form::Member(&COUNTED, "x"), "(a++).x;"),
    (Form::Member(&RECORD, "x"), "({ k: a }.x);"),
    (Form::At(&FIVE, &X), "5[x];"),
    (Form::At(&MINUS_FIVE, &X), "(-5)[x];"),
    (Form::At(&BIG, &X), "(-5n)[x];"),
    (Form::At(&CALL, &X), "f(a)[x];"),
    (Form::At(&NOT, &X), "(!a)[x];"),
    (Form::Call(&CALL, &[]), "f(a)();"),
    (Form::Call(&OF_CALL, &[]), "f(a).b();"),
    (Form::Call(&OBJECT, &[]), "new C()();"),
    (Form::Call(&CHOICE, &[]), "(a ? b : c)();"),
    (Form::Call(&RECORD, &[]), "({ k: a }());"),
    (Form::New(&A), "new a();"),
    (Form::New(&CALL), "new (f(a))();"),
    (Form::New(&OF_CALL), "new (f(a).b)();"),
    (Form::New(&OBJECT), "new new C()();"),
    (Form::New(&NOT), "new (!a)();"),
    (Form::New(&RECORD), "new { k: a }();"),
    // operators of one operand
    (Form::Unary(UnaryOperator::Increment, &A), "a++;"),
    (Form::Unary(UnaryOperator::Increment, &OF_CALL), "f(a).b++;"),
    (Form::Unary(UnaryOperator::Not, &CALL), "!f(a);"),
    (Form::Unary(UnaryOperator::Not, &NOT), "!!a;"),
    (Form::Unary(UnaryOperator::Not, &MINUS_FIVE), "!-5;"),
    (Form::Unary(UnaryOperator::Not, &COUNTED), "!a++;"),
    (Form::Unary(UnaryOperator::Not, &PRODUCT), "!(a * b);"),
    (Form::Unary(UnaryOperator::Not, &RECORD), "!{ k: a };"),
    // operators of two operands
    (
        Form::Binary(BinaryOperator::Multiply, &MINUS_FIVE, &X),
        "-5 * x;",
    ),
    (
        Form::Binary(BinaryOperator::Multiply, &QUOTIENT, &X),
        "a / b * x;",
    ),
    (
        Form::Binary(BinaryOperator::Multiply, &SUM, &X),
        "(a + b) * x;",
    ),
    (
        Form::Binary(BinaryOperator::Add, &RECORD, &X),
        "({ k: a } + x);",
    ),
    (
        Form::Binary(BinaryOperator::Multiply, &X, &QUOTIENT),
        "x * (a / b);",
    ),
    (
        Form::Binary(BinaryOperator::Add, &X, &QUOTIENT),
        "x + a / b;",
    ),
    (
        Form::Binary(BinaryOperator::Add, &X, &RECORD),
        "x + { k: a };",
    ),
    (
        Form::Binary(BinaryOperator::Subtract, &X, &MINUS_FIVE),
        "x - -5;",
    ),
    (Form::Binary(BinaryOperator::And, &BITS, &X), "a | b && x;"),
    (
        Form::Binary(BinaryOperator::And, &EITHER, &X),
        "(a || b) && x;",
    ),
    (
        Form::Binary(BinaryOperator::And, &X, &BOTH),
        "x && (a && b);",
    ),
    (Form::Binary(BinaryOperator::Or, &BOTH, &X), "a && b || x;"),
    (Form::Binary(BinaryOperator::Or, &X, &BOTH), "x || a && b;"),
    (
        Form::Binary(BinaryOperator::Or, &X, &CHOICE),
        "x || (a ? b : c);",
    ),
    // `??`, which takes neither `&&` nor `||` beside it
    (
        Form::Binary(BinaryOperator::Coalesce, &BOTH, &X),
        "(a && b) ?? x;",
    ),
    (
        Form::Binary(BinaryOperator::Coalesce, &EITHER, &X),
        "(a || b) ?? x;",
    ),
    (
        Form::Binary(BinaryOperator::Coalesce, &BITS, &X),
        "a | b ?? x;",
    ),
    (
        Form::Binary(BinaryOperator::Coalesce, &COALESCED, &X),
        "a ?? b ?? x;",
    ),
    (
        Form::Binary(BinaryOperator::Coalesce, &X, &BOTH),
        "x ?? (a && b);",
    ),
    (
        Form::Binary(BinaryOperator::Coalesce, &X, &EITHER),
        "x ?? (a || b);",
    ),
    (
        Form::Binary(BinaryOperator::Coalesce, &X, &BITS),
        "x ?? a | b;",
    ),
    (
        Form::Binary(BinaryOperator::Coalesce, &X, &COALESCED),
        "x ?? (a ?? b);",
    ),
    (
        Form::Binary(BinaryOperator::Or, &COALESCED, &X),
        "(a ?? b) || x;",
    ),
    (
        Form::Binary(BinaryOperator::Or, &X, &COALESCED),
        "x || (a ?? b);",
    ),
    (
        Form::Binary(BinaryOperator::And, &COALESCED, &X),
        "(a ?? b) && x;",
    ),
    (
        Form::Binary(BinaryOperator::And, &X, &COALESCED),
        "x && (a ?? b);",
    ),
    // the parts of a choice
    (Form::Cond(&CHOICE, &X, &Y), "(a ? b : c) ? x : y;"),
    (Form::Cond(&COALESCED, &X, &Y), "a ?? b ? x : y;"),
    (Form::Cond(&RECORD, &X, &Y), "({ k: a } ? x : y);"),
    (Form::Cond(&X, &EITHER, &Y), "x ? a || b : y;"),
    (Form::Cond(&X, &Y, &RECORD), "x ? y : { k: a };"),
    (Form::Cond(&X, &CHOICE, &Y), "x ? (a ? b : c) : y;"),
    (Form::Cond(&X, &Y, &CHOICE), "x ? y : (a ? b : c);"),
];

fn told(alloc: Global, form: &Form) -> Result<String, AllocError> {
    let stmt = Stmt::Do(expr_of(alloc, form)?);
    printed(alloc, words_of(alloc, slice::from_ref(&stmt))?)
}

#[test]
fn operands_stand_in_parentheses_where_the_order_asks(rt: HostRuntime) -> Result<(), AllocError> {
    for (form, text) in EXPRESSIONS {
        assert_told(&rt, told(rt.alloc(), form), text)?;
    }
    Ok(())
}
