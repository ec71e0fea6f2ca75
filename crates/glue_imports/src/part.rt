//! Parts of an import's expression.
use values::{Seq, Text};

/// A part of the text of an expression, or of the statements before it. Operands are those that the import is called with, locals those
/// that the statements declare, both by their places, counted from 0.
#[derive(Drop)]
pub enum Part {
    /// The name of the host, and the properties that are read from it, one after the other.
    Host(Text, Seq<Text>),
    /// A name of the module's scope, other than `wasm`.
    Name(Text),
    /// The object that holds the exports of the WebAssembly module: `wasm`.
    Exports,
    /// The export of this name of that object: `wasm.name`, or `wasm["name"]`.
    Export(Text),
    /// The access of the properties that a name tells: `.name`, `["name"]`, or a computed key as it is.
    Property(Text),
    /// The same of a value that may be absent: `?.name`, `?.["name"]`, or a computed key behind `?.`.
    Chained(Text),
    /// The key of a property in braces.
    Member(Text),
    /// A string literal.
    Literal(Text),
    /// A whole number.
    Number(i64),
    /// Punctuation, by its place in its table.
    Punct(u8),
    /// A keyword, by its place in its table.
    Key(u8),
    /// A space.
    Space,
    /// A line feed.
    LineFeed,
    /// A comment up to the end of the line, whatever its text is.
    Note(Text),
    /// A local, where it is declared.
    Binding(usize),
    /// A local, where it is used.
    Local(usize),
    /// An operand, in parentheses where it holds an operator.
    Operand(usize),
    /// An operand as it is.
    Whole(usize),
    /// All operands as arguments in parentheses, the last one spread where that is true.
    Arguments(bool),
    /// All operands but the first as arguments in parentheses, the last one spread where that is true.
    OtherArguments(bool),
}

/// What a call of an import evaluates, with the statements before it.
#[derive(Drop)]
pub struct Expression {
    /// The wanted names of the locals that the statements declare, in the order in which they do.
    pub locals: Seq<Text>,
    /// The statements, each with its line feed.
    pub prelude: Seq<Part>,
    /// The expression itself.
    pub value: Seq<Part>,
}
