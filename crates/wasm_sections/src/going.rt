//! Which custom sections go.

ghost use Rattle.std.specs.Prelude.{◌≡◌};
ghost use Rattle.wasm_sections.specs.Going.{is_going};
ghost use Rattle.wasm_sections.specs.Replaced.{is_custom};

use wasm_core::Section;

/// Custom sections of one purpose.
#[derive(Clone, Copy)]
pub(crate) enum Going {
    /// Those of debugging information: each name that begins with `.debug_`.
    DebugInfo,
    /// The description for the glue: the name `__wbg_glue`.
    Description,
}

impl Going {
    /// Whether a custom section of this name goes.
    fn is_name(self, name: &str) -> bool
        ensures { result ≡ is_going self name.now }
    {
        match self {
            Going::DebugInfo => name.as_bytes().starts_with(b".debug_"),
            Going::Description => name == "__wbg_glue",
        }
    }

    /// Whether this section goes.
    pub(crate) fn has(self, frame: &Section) -> bool
        ensures { result ≡ is_custom (is_going self) frame.now }
    {
        match &frame.name {
            Some(name) => self.is_name(name.as_str()),
            None => false,
        }
    }
}
