//! Elements of arrays that pass through a memory.
ghost use Rattle.std.specs.Prelude.{◌≡◌, pos};
ghost use Rattle.glue_helpers.specs.Numbered as spec;

/// The element of an array: a signed or unsigned whole number of so many bits.
#[derive(Clone, Copy, Debug, PartialEq, Eq)]
pub enum ElementKind {
    I8,
    U8,
    I16,
    U16,
    I32,
    U32,
    I64,
    U64,
}

/// The host's class of arrays of such elements.
pub fn class_of(element: ElementKind) -> &'static str
    ensures class { result.now ≡ spec.element_class element }
{
    match element {
        ElementKind::I8 => "Int8Array",
        ElementKind::U8 => "Uint8Array",
        ElementKind::I16 => "Int16Array",
        ElementKind::U16 => "Uint16Array",
        ElementKind::I32 => "Int32Array",
        ElementKind::U32 => "Uint32Array",
        ElementKind::I64 => "BigInt64Array",
        ElementKind::U64 => "BigUint64Array",
    }
}

/// What the names of helpers call such elements.
pub fn letters_of(element: ElementKind) -> &'static str
    ensures letters { result.now ≡ spec.element_letters element }
{
    match element {
        ElementKind::I8 => "I8",
        ElementKind::U8 => "U8",
        ElementKind::I16 => "I16",
        ElementKind::U16 => "U16",
        ElementKind::I32 => "I32",
        ElementKind::U32 => "U32",
        ElementKind::I64 => "I64",
        ElementKind::U64 => "U64",
    }
}

/// How many bytes an element takes.
pub fn size_of(element: ElementKind) -> i64
    ensures size { result ≡ pos (spec.element_size element) }
{
    match element {
        ElementKind::I8 | ElementKind::U8 => 1,
        ElementKind::I16 | ElementKind::U16 => 2,
        ElementKind::I32 | ElementKind::U32 => 4,
        ElementKind::I64 | ElementKind::U64 => 8,
    }
}

/// The number of bits of an element of an array that is passed, whatever its sign.
#[derive(Clone, Copy, Debug, PartialEq, Eq)]
pub enum Width {
    Bits8,
    Bits16,
    Bits32,
    Bits64,
}

/// The element without a sign.
pub fn unsigned_of(width: Width) -> ElementKind
    ensures unsigned { result ≡ spec.unsigned_element width }
{
    match width {
        Width::Bits8 => ElementKind::U8,
        Width::Bits16 => ElementKind::U16,
        Width::Bits32 => ElementKind::U32,
        Width::Bits64 => ElementKind::U64,
    }
}

/// The number in decimal digits.
pub fn digits_of(width: Width) -> &'static str
    ensures digits { result.now ≡ spec.width_digits width }
{
    match width {
        Width::Bits8 => "8",
        Width::Bits16 => "16",
        Width::Bits32 => "32",
        Width::Bits64 => "64",
    }
}
