//! What is asked for of the files themselves.

/// What is asked for of the files that are written, beside the settings.
#[derive(Clone, Copy, Debug)]
pub struct FileFlags {
    /// Whether debug information is asked for in a file of its own.
    pub split_debug_info: bool,
    /// Whether names of functions are to be demangled.
    pub demangle: bool,
}
