//! The texts of helpers that test a value, and of the function that stands for an import that is missing. None has a
//! stand-in.

/// `_assertNum(n)` throws unless `n` is a number.
pub const ASSERT_NUM: &str = r#"function b@_assertNum(l@n) {
if (typeof(n) !== "number") throw new h@Error(`expected a number argument, found ${typeof(n)}`);
}
"#;

/// `_assertBigInt(n)` throws unless `n` is a bigint.
pub const ASSERT_BIGINT: &str = r#"function b@_assertBigInt(l@n) {
if (typeof(n) !== "bigint") throw new h@Error(`expected a bigint argument, found ${typeof(n)}`);
}
"#;

/// `_assertBoolean(n)` throws unless `n` is a truth.
pub const ASSERT_BOOL: &str = r#"function b@_assertBoolean(l@n) {
if (typeof(n) !== "boolean") {
throw new h@Error(`expected a boolean argument, found ${typeof(n)}`);
}
}
"#;

/// `_assertClass(instance, klass)` throws unless the object is an instance of the class.
pub const ASSERT_CLASS: &str = r#"function b@_assertClass(l@instance, l@klass) {
if (!(instance instanceof klass)) {
throw new h@Error(`expected instance of ${klass.name}`);
}
}
"#;

/// `isLikeNone(x)`: whether `x` is `undefined` or `null`.
pub const IS_LIKE_NONE: &str = r#"function b@isLikeNone(l@x) {
return x === h@undefined || x === null;
}
"#;

/// `notDefined(what)` gives a function that throws, since this isn't defined.
pub const NOT_DEFINED: &str =
    r#"function b@notDefined(l@what) { return () => { throw new h@Error(`${what} is not defined`); }; }
"#;
