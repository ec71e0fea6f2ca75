//! Which operands stand in parentheses: those that bind more loosely than ECMAScript's grammar allows where they stand
//! (sections 13.3 to 13.14).
ghost use Rattle.std.specs.Prelude.{◌≡◌};
ghost use Rattle.glue_tree.specs.Operands as spec;
ghost use Rattle.glue_tree.specs.Plainly.{plain_expr};

use crate::tree::{BinaryOperator, Expr, UnaryOperator};

// The place of names, literals and `new`, of calls, and of `? :` among the forms of expressions, the tightest first.
const MEMBER: u8 = 0;

const CALL: u8 = 1;

const CHOICE: u8 = 15;

// Where an operand stands.
#[derive(Clone, Copy)]
pub enum Position {
    // `e.name`
    Object,
    // `e(..)` and `e[i]`
    Callee,
    // `new e(..)`
    Class,
    // with an operator of its own
    Operand(UnaryOperator),
    // on the left of an operator
    Left(BinaryOperator),
    // on its right
    Right(BinaryOperator),
    // a part of `? :`
    Choice,
}

// The place of what an operator of one operand makes.
fn place_of_one(op: UnaryOperator) -> u8
    ensures place { result ≡ spec.place_of_one op }
{
    match op {
        UnaryOperator::Increment | UnaryOperator::Decrement => 2,
        UnaryOperator::BitNot | UnaryOperator::Not | UnaryOperator::TypeOf => 3,
    }
}

// The place of a number.
fn place_of_number(value: i64) -> u8
    ensures place { result ≡ spec.place_of_number value }
{
    if value < 0 { 3 } else { MEMBER }
}

// The place of what an operator of two operands makes.
fn place_of_two(op: BinaryOperator) -> u8
    ensures place { result ≡ spec.place_of_two op }
{
    match op {
        BinaryOperator::Multiply | BinaryOperator::Divide | BinaryOperator::Remainder => 4,
        BinaryOperator::Add | BinaryOperator::Subtract => 5,
        BinaryOperator::ShiftLeft | BinaryOperator::ShiftRight | BinaryOperator::ShiftUnsigned => 6,
        BinaryOperator::Less
        | BinaryOperator::Greater
        | BinaryOperator::AtMost
        | BinaryOperator::AtLeast
        | BinaryOperator::InstanceOf
        | BinaryOperator::In => 7,
        BinaryOperator::Equal
        | BinaryOperator::StrictEqual
        | BinaryOperator::Unequal
        | BinaryOperator::StrictUnequal => 8,
        BinaryOperator::BitAnd => 9,
        BinaryOperator::BitXor => 10,
        BinaryOperator::BitOr => 11,
        BinaryOperator::And => 12,
        BinaryOperator::Or => 13,
        BinaryOperator::Coalesce => 14,
    }
}

// The place of what is taken of an expression at a place.
fn place_of_taken(place: u8) -> u8
    ensures place { result ≡ spec.place_of_taken place }
{
    if place == CALL { CALL } else { MEMBER }
}

// The place of an expression.
#[cycle(places)]
fn place_of(expr: &Expr) -> u8
    ensures place { result ≡ spec.place (plain_expr expr.now) }
{
    match expr {
        Expr::Num(value) | Expr::Big(value) => place_of_number(*value),
        Expr::Member(object, _) | Expr::At(object, _) => place_of_taken(place_of(object.get())),
        Expr::Call(_, _) => CALL,
        Expr::Unary(op, _) => place_of_one(*op),
        Expr::Binary(op, _, _) => place_of_two(*op),
        Expr::Cond(_, _, _) => CHOICE,
        _ => MEMBER,
    }
}

fn is_number(expr: &Expr) -> bool
    ensures test { result ≡ spec.is_number (plain_expr expr.now) }
{
    match expr {
        Expr::Num(_) => true,
        _ => false,
    }
}

// `a && b` or `a || b`
fn is_logical(expr: &Expr) -> bool
    ensures test { result ≡ spec.is_logical (plain_expr expr.now) }
{
    match expr {
        Expr::Binary(BinaryOperator::And | BinaryOperator::Or, _, _) => true,
        _ => false,
    }
}

fn is_coalesce(op: BinaryOperator) -> bool
    ensures test { result ≡ spec.is_coalesce op }
{
    match op {
        BinaryOperator::Coalesce => true,
        _ => false,
    }
}

// Whether an operand of an operator alone, whose place this is, stands without parentheses.
fn takes_alone(op: UnaryOperator, place: u8) -> bool
    ensures test { result ≡ spec.takes_alone op place }
{
    match op {
        UnaryOperator::Increment => place <= CALL,
        _ => place <= place_of_one(op),
    }
}

// Whether an operand stands without parentheses there.
pub fn takes(position: Position, operand: &Expr) -> bool
    ensures test { result ≡ spec.takes position (plain_expr operand.now) }
{
    let place = place_of(operand);
    match position {
        Position::Object => !is_number(operand) && place <= CALL,
        Position::Callee => place <= CALL,
        Position::Class => place < CALL,
        Position::Operand(op) => takes_alone(op, place),
        Position::Left(op) => place <= place_of_two(op)
            && !(is_coalesce(op) && is_logical(operand)),
        Position::Right(op) => place < place_of_two(op)
            && !(is_coalesce(op) && is_logical(operand)),
        Position::Choice => place < CHOICE,
    }
}

// Whether the words of an expression begin with `{`.
#[cycle(braces)]
pub fn begins_with_brace(expr: &Expr) -> bool
    ensures test { result ≡ spec.begins_with_brace (plain_expr expr.now) }
{
    match expr {
        Expr::Record(_) => true,
        Expr::Member(e, _) => begins_with_brace(e.get()) && takes(Position::Object, e.get()),
        Expr::At(e, _) | Expr::Call(e, _) => {
            begins_with_brace(e.get()) && takes(Position::Callee, e.get())
        }
        Expr::Unary(UnaryOperator::Increment, e) => {
            begins_with_brace(e.get())
                && takes(Position::Operand(UnaryOperator::Increment), e.get())
        }
        Expr::Binary(op, e, _) => begins_with_brace(e.get()) && takes(Position::Left(*op), e.get()),
        Expr::Cond(e, _, _) => begins_with_brace(e.get()) && takes(Position::Choice, e.get()),
        _ => false,
    }
}
