//! The places of punctuation in its table, by name.

/// How many forms of punctuation there are.
pub const COUNT: u8 = 45;

/// `{`
pub const OPEN_BRACE: u8 = 0;
/// `}`
pub const CLOSE_BRACE: u8 = 1;
/// `(`
pub const OPEN_PAREN: u8 = 2;
/// `)`
pub const CLOSE_PAREN: u8 = 3;
/// `[`
pub const OPEN_BRACKET: u8 = 4;
/// `]`
pub const CLOSE_BRACKET: u8 = 5;
/// `.`
pub const DOT: u8 = 6;
/// `,`
pub const COMMA: u8 = 7;
/// `;`
pub const SEMICOLON: u8 = 8;
/// `:`
pub const COLON: u8 = 9;
/// `?`
pub const QUESTION: u8 = 10;
/// `?.`
pub const OPTIONAL: u8 = 11;
/// `...`
pub const SPREAD: u8 = 12;
/// `=>`
pub const ARROW: u8 = 13;
/// `=`
pub const ASSIGN: u8 = 14;
/// `==`
pub const LOOSE_EQUAL: u8 = 15;
/// `===`
pub const EQUAL: u8 = 16;
/// `!=`
pub const LOOSE_UNEQUAL: u8 = 17;
/// `!==`
pub const UNEQUAL: u8 = 18;
/// `<`
pub const LESS: u8 = 19;
/// `>`
pub const GREATER: u8 = 20;
/// `<=`
pub const AT_MOST: u8 = 21;
/// `>=`
pub const AT_LEAST: u8 = 22;
/// `+`
pub const PLUS: u8 = 23;
/// `-`
pub const MINUS: u8 = 24;
/// `*`
pub const TIMES: u8 = 25;
/// `/`
pub const DIVIDE: u8 = 26;
/// `%`
pub const REMAINDER: u8 = 27;
/// `**`
pub const POWER: u8 = 28;
/// `++`
pub const INCREMENT: u8 = 29;
/// `--`
pub const DECREMENT: u8 = 30;
/// `+=`
pub const ADD_ASSIGN: u8 = 31;
/// `&`
pub const BIT_AND: u8 = 32;
/// `|`
pub const BIT_OR: u8 = 33;
/// `^`
pub const BIT_XOR: u8 = 34;
/// `~`
pub const BIT_NOT: u8 = 35;
/// `<<`
pub const SHIFT_LEFT: u8 = 36;
/// `>>`
pub const SHIFT_RIGHT: u8 = 37;
/// `>>>`
pub const SHIFT_RIGHT_UNSIGNED: u8 = 38;
/// `!`
pub const NOT: u8 = 39;
/// `&&`
pub const AND: u8 = 40;
/// `||`
pub const OR: u8 = 41;
/// `??`
pub const COALESCE: u8 = 42;
/// `??=`
pub const COALESCE_ASSIGN: u8 = 43;
/// `||=`
pub const OR_ASSIGN: u8 = 44;
