//! What follows an opcode (WebAssembly core specification, 5.4).

ghost use Rattle.std.specs.Prelude.{◌≡◌};
ghost use Rattle.wasm_ops.specs.Shapes.{simd_shape, shape_of, initial_shape, shape_within, named_blocks};

/// The operands that follow an opcode.
#[derive(Clone, Copy)]
pub enum Shape {
    Plain,
    Block,
    Tag,
    Label,
    BrTable,
    Func,
    Indirect,
    Select,
    TryTable,
    Local,
    Global,
    Table,
    Mem,
    Memory,
    Const32,
    Const64,
    Raw4,
    Raw8,
    RefNull,
    /// A number and what it asks for: numbers that saturate, and memory and tables in bulk.
    Bulk,
    /// A number and what it asks for: vectors.
    Simd,
    /// The number of the constant vector and its bytes.
    Const128,
}

/// The operands that follow the number of a vector operator.
#[derive(Clone, Copy)]
pub enum SimdShape {
    Plain,
    Mem,
    MemLane,
    Bytes,
    Lane,
}

/// What follows the number of a vector operator.
pub(crate) fn simd_shape(code: u32) -> SimdShape
    ensures { result ≡ simd_shape code }
{
    match code {
        0..=11 | 92 | 93 => SimdShape::Mem,
        12 | 13 => SimdShape::Bytes,
        21..=34 => SimdShape::Lane,
        84..=91 => SimdShape::MemLane,
        _ => SimdShape::Plain,
    }
}

/// What follows an opcode, none where it stands for no operator.
fn shape_of(code: u8) -> Option<Shape>
    ensures { result ≡ shape_of code }
{
    match code {
        0x00 | 0x01 | 0x05 | 0x0A | 0x0B | 0x0F | 0x19 | 0x1A | 0x1B | 0x45..=0xC4 | 0xD1 => {
            Some(Shape::Plain)
        }
        0x02 | 0x03 | 0x04 | 0x06 => Some(Shape::Block),
        0x07 | 0x08 => Some(Shape::Tag),
        0x09 | 0x0C | 0x0D | 0x18 => Some(Shape::Label),
        0x0E => Some(Shape::BrTable),
        0x10 | 0x12 | 0xD2 => Some(Shape::Func),
        0x11 | 0x13 => Some(Shape::Indirect),
        0x1C => Some(Shape::Select),
        0x1F => Some(Shape::TryTable),
        0x20..=0x22 => Some(Shape::Local),
        0x23 | 0x24 => Some(Shape::Global),
        0x25 | 0x26 => Some(Shape::Table),
        0x28..=0x3E => Some(Shape::Mem),
        0x3F | 0x40 => Some(Shape::Memory),
        0x41 => Some(Shape::Const32),
        0x42 => Some(Shape::Const64),
        0x43 => Some(Shape::Raw4),
        0x44 => Some(Shape::Raw8),
        0xD0 => Some(Shape::RefNull),
        0xFC => Some(Shape::Bulk),
        0xFD => Some(Shape::Simd),
        _ => None,
    }
}

/// What follows an opcode in an initial expression, none where it can't stand there.
pub fn initial_shape(code: u8) -> Option<Shape>
    ensures { result ≡ initial_shape code }
{
    match code {
        0x6A..=0x6C | 0x7C..=0x7E => Some(Shape::Plain),
        0x23 => Some(Shape::Global),
        0x41 => Some(Shape::Const32),
        0x42 => Some(Shape::Const64),
        0x43 => Some(Shape::Raw4),
        0x44 => Some(Shape::Raw8),
        0xD0 => Some(Shape::RefNull),
        0xD2 => Some(Shape::Func),
        0xFD => Some(Shape::Const128),
        _ => None,
    }
}

/// What follows an opcode within these open blocks, the body first: `true` for an `if` that had no `else` yet.
pub fn shape_within(labels: &[bool], code: u8) -> Option<Shape>
    ensures { result ≡ shape_within labels.now code }
{
    if code == 0x05 && labels.last() != Some(&true) {
        return None;
    }
    if code == 0x18 && labels.len() < 2 {
        return None;
    }
    shape_of(code)
}

/// How many open blocks the operands of an opcode can name: `delegate` closes its block first.
pub fn named_blocks(labels: &[bool], code: u8) -> u64
    ensures { result ≡ named_blocks labels.now code }
{
    if code == 0x18 {
        labels.len().saturating_sub(1) as u64
    } else {
        labels.len() as u64
    }
}
