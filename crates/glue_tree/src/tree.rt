//! Expressions with their operators, statements and functions.
use glue_words::Word;
use values::{Boxed, Seq, Text};

/// A keyword that is an expression of its own.
#[derive(Clone, Copy)]
pub enum Constant {
    /// `arguments`
    Arguments,
    /// `false`
    False,
    /// `null`
    Null,
    /// `this`
    This,
    /// `true`
    True,
}

/// An operator of one operand.
#[derive(Clone, Copy)]
pub enum UnaryOperator {
    /// `e++`
    Increment,
    /// `--e`
    Decrement,
    /// `~e`
    BitNot,
    /// `!e`
    Not,
    /// `typeof e`
    TypeOf,
}

/// An operator of two operands.
#[derive(Clone, Copy)]
pub enum BinaryOperator {
    /// `a * b`
    Multiply,
    /// `a / b`
    Divide,
    /// `a % b`
    Remainder,
    /// `a + b`
    Add,
    /// `a - b`
    Subtract,
    /// `a << b`
    ShiftLeft,
    /// `a >> b`
    ShiftRight,
    /// `a >>> b`
    ShiftUnsigned,
    /// `a < b`
    Less,
    /// `a > b`
    Greater,
    /// `a <= b`
    AtMost,
    /// `a >= b`
    AtLeast,
    /// `a instanceof b`
    InstanceOf,
    /// `a in b`
    In,
    /// `a == b`
    Equal,
    /// `a === b`
    StrictEqual,
    /// `a != b`
    Unequal,
    /// `a !== b`
    StrictUnequal,
    /// `a & b`
    BitAnd,
    /// `a ^ b`
    BitXor,
    /// `a | b`
    BitOr,
    /// `a && b`
    And,
    /// `a || b`
    Or,
    /// `a ?? b`
    Coalesce,
}

/// An expression.
#[derive(Drop)]
pub enum Expr {
    /// A whole number.
    Num(i64),
    /// A big integer, as `5n`.
    Big(i64),
    /// A text.
    Str(Text),
    /// `null`, `true` and other keywords that are expressions.
    Constant(Constant),
    /// A name of the function's scope.
    Local(Text),
    /// A name of the module's scope.
    Module(Text),
    /// A name that the host gives.
    Host(Text),
    /// An export of the WebAssembly module, by its name.
    Wasm(Text),
    /// `e.name`
    Member(Boxed<Expr>, Text),
    /// `e[i]`
    At(Boxed<Expr>, Boxed<Expr>),
    /// A call with its arguments.
    Call(Boxed<Expr>, Seq<Expr>),
    /// `new e(..)`
    New(Boxed<Expr>, Seq<Expr>),
    /// An operator with its operand.
    Unary(UnaryOperator, Boxed<Expr>),
    /// An operator with its left operand and its right one.
    Binary(BinaryOperator, Boxed<Expr>, Boxed<Expr>),
    /// `c ? a : b`
    Cond(Boxed<Expr>, Boxed<Expr>, Boxed<Expr>),
    /// `{ key: e, .. }`
    Record(Seq<(Text, Expr)>),
}

/// A statement.
#[derive(Drop)]
pub enum Stmt {
    /// `const name = e;`
    Let(Text, Expr),
    /// `let name;`
    Unset(Text),
    /// `target = e;`
    Set(Expr, Expr),
    /// `e;`
    Do(Expr),
    /// `if (e) {..}`
    If(Expr, Seq<Stmt>),
    /// `if (e) s`
    Short(Expr, Boxed<Stmt>),
    /// `try {..} finally {..}`
    Finally(Seq<Stmt>, Seq<Stmt>),
    /// `try {..} catch (name) {..}`
    Catch(Seq<Stmt>, Text, Seq<Stmt>),
    /// `throw e;`
    Throw(Expr),
    /// `return;` or `return e;`
    Return(Option<Expr>),
    /// The call of an import adapter: its id, its operands, the local that its answer is bound to, and its own words.
    Embedded(u32, Seq<Expr>, Option<Text>, Seq<Word>),
}

/// A function without its name.
#[derive(Drop)]
pub struct JsFunction {
    /// The parameters, in order.
    pub params: Seq<Text>,
    /// The statements.
    pub tree: Seq<Stmt>,
    /// The words, from the parameters' parenthesis to the closing brace.
    pub words: Seq<Word>,
    /// The TypeScript signature.
    pub ts_sig: Text,
    /// The TypeScript documentation.
    pub ts_doc: Text,
    /// The JavaScript documentation.
    pub js_doc: Text,
}
