//! The two forms of lines that take a module.

/// How a line takes a module.
#[derive(Clone, Copy, Debug, PartialEq, Eq)]
pub enum LineForm {
    /// By a declaration `import`, where the glue file is an ES module.
    Es,
    /// By a call of the host's `require`, where it is a CommonJS module of Node.
    CommonJs,
}
