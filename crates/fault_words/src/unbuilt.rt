//! What isn't built, and what to do instead.

/// What a kind of things is that isn't built, and what to do instead.
pub(crate) fn unbuilt_words(what: &str) -> &'static str {
    match what {
        "target" => { " isn't built: files are made for Deno alone. Ask for `--target deno`." }
        "imports" => {
            " isn't built: the glue file has to define an import that is neither a function nor a memory with limits below 2^63, or the description tells an import in a form that nothing prints. docs/DESCRIPTION.md says which forms are built."
        }
        "classes" => {
            " isn't built: the description has classes, constructors, methods or accessors, or imports that wrap or unwrap instances of its classes. Export functions instead."
        }
        "settings" => {
            " isn't built: tests at run time, declarations for TypeScript, exports of the module's own names, or a function that starts the module anew are asked for. Leave that switch out."
        }
        "lifecycle" => {
            " isn't built: the description has the module made anew (`uses_reinit`), exceptions of WebAssembly are imported or described, or it has what TypeScript alone reads (`unions`, `extra_typescript`, async exports). Leave that out."
        }
        "module" => {
            " isn't built: the module has something that nothing here carries over. Make the module without it."
        }
        _ => " isn't built yet.",
    }
}
