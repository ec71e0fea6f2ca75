//! Helpers that go by the place of a memory or a table.
use std::fmt;
use values::Text;

/// A helper of which there is one for each memory or table, as the view `getUint8ArrayMemory0`. It is displayed as the name followed by
/// the number, in decimal digits.
#[derive(Debug, PartialEq, Eq, PartialOrd, Ord, Hash, Drop)]
pub struct MemView {
    /// The name without its number.
    pub name: Text,
    /// The place of the memory or table in the module's list, from 0, with empty places counted.
    pub num: u32,
}

impl fmt::Display for MemView {
    ghost use Rattle.std.specs.Prelude.{Some, ◌++◌};
    ghost use Rattle.std.specs.Fmt.{decimal};

    ghost output = { λ view. Some (view.name ++ decimal view.num) };

    fn fmt<W: fmt::Write>(&self, f: &mut fmt::Formatter<W>) -> fmt::Result {
        write!(f, "{}{}", self.name.as_str(), self.num)
    }
}
