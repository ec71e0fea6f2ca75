//! The places of keywords in their table, by name.

/// How many keywords there are.
pub const COUNT: u8 = 43;

/// `arguments`
pub const ARGUMENTS: u8 = 0;
/// `as`
pub const AS: u8 = 1;
/// `async`
pub const ASYNC: u8 = 2;
/// `await`
pub const AWAIT: u8 = 3;
/// `break`
pub const BREAK: u8 = 4;
/// `case`
pub const CASE: u8 = 5;
/// `catch`
pub const CATCH: u8 = 6;
/// `class`
pub const CLASS: u8 = 7;
/// `const`
pub const CONST: u8 = 8;
/// `default`
pub const DEFAULT: u8 = 9;
/// `delete`
pub const DELETE: u8 = 10;
/// `else`
pub const ELSE: u8 = 11;
/// `export`
pub const EXPORT: u8 = 12;
/// `extends`
pub const EXTENDS: u8 = 13;
/// `false`
pub const FALSE: u8 = 14;
/// `finally`
pub const FINALLY: u8 = 15;
/// `for`
pub const FOR: u8 = 16;
/// `from`
pub const FROM: u8 = 17;
/// `function`
pub const FUNCTION: u8 = 18;
/// `get`
pub const GET: u8 = 19;
/// `if`
pub const IF: u8 = 20;
/// `import`
pub const IMPORT: u8 = 21;
/// `in`
pub const IN: u8 = 22;
/// `instanceof`
pub const INSTANCEOF: u8 = 23;
/// `let`
pub const LET: u8 = 24;
/// `n`
pub const N: u8 = 25;
/// `new`
pub const NEW: u8 = 26;
/// `null`
pub const NULL: u8 = 27;
/// `of`
pub const OF: u8 = 28;
/// `return`
pub const RETURN: u8 = 29;
/// `set`
pub const SET: u8 = 30;
/// `source`
pub const SOURCE: u8 = 31;
/// `static`
pub const STATIC: u8 = 32;
/// `super`
pub const SUPER: u8 = 33;
/// `switch`
pub const SWITCH: u8 = 34;
/// `this`
pub const THIS: u8 = 35;
/// `throw`
pub const THROW: u8 = 36;
/// `true`
pub const TRUE: u8 = 37;
/// `try`
pub const TRY: u8 = 38;
/// `typeof`
pub const TYPEOF: u8 = 39;
/// `var`
pub const VAR: u8 = 40;
/// `void`
pub const VOID: u8 = 41;
/// `while`
pub const WHILE: u8 = 42;
