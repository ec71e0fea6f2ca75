//! Numbers in their shortest form (WebAssembly core specification, 5.2.2).

ghost use Rattle.std.specs.Prelude.{◌≡◌, ◌+◌, ◌^◌, ◌<◌, ◌≤◌, ◌++◌, length, OnOk};
ghost use Rattle.wasm_bytes.specs.Numbers.{shortest, number_bytes};
ghost use Rattle.std.specs.Prelude.{pos};
ghost use Rattle.std.specs.Int.{int_div_euclid};
ghost use Rattle.wasm_bytes.specs.Signed.{low_bits, is_digit, shortest_signed, signed_bytes};

use std::alloc::AllocError;

/// Appends the shortest LEB128 form of a number of 32 bits.
pub fn push_u32(out: &mut Vec<u8>, value: u32) -> Result<(), AllocError>
    ensures { OnOk result (out.new.items ≡ out.old.items ++ number_bytes value) }
{
    push_number(out, value as u64)
}

/// Appends the shortest LEB128 form of a number of 64 bits.
#[tactic(auto, unfolding(crate::specs::Numbers::number_bytes))]
pub fn push_number(out: &mut Vec<u8>, value: u64) -> Result<(), AllocError>
    ensures { OnOk result (out.new.items ≡ out.old.items ++ number_bytes value) }
{
    push_shortest(out, 9, value)
}

#[tactic(auto, unfolding(crate::specs::Numbers::shortest))]
fn push_shortest(out: &mut Vec<u8>, more: u32, value: u64) -> Result<(), AllocError>
    requires { value < 128 ^ (more + 1) }
    ensures { OnOk result (out.new.items ≡ out.old.items ++ shortest more value) }
{
    if more == 0 || value < 128 {
        out.push(value as u8)?;
        return Ok(());
    }
    out.push((value % 128) as u8 + 128)?;
    push_shortest(out, more - 1, value / 128)
}

/// Appends the shortest signed LEB128 form of a number of 32 bits.
pub fn push_i32(out: &mut Vec<u8>, value: i32) -> Result<(), AllocError>
    ensures { OnOk result (out.new.items ≡ out.old.items ++ signed_bytes value) }
{
    push_i64(out, value as i64)
}

/// Appends the shortest signed LEB128 form of a number of 64 bits.
#[tactic(auto, unfolding(crate::specs::Signed::signed_bytes))]
pub fn push_i64(out: &mut Vec<u8>, value: i64) -> Result<(), AllocError>
    ensures { OnOk result (out.new.items ≡ out.old.items ++ signed_bytes value) }
{
    push_signed(out, 9, value)
}

#[tactic(auto, unfolding(crate::specs::Signed::shortest_signed))]
fn push_signed(out: &mut Vec<u8>, more: u32, value: i64) -> Result<(), AllocError>
    ensures { OnOk result (out.new.items ≡ out.old.items ++ shortest_signed more value) }
{
    if more == 0 || is_digit(value) {
        out.push(low_bits(value))?;
        return Ok(());
    }
    out.push(low_bits(value) + 128)?;
    push_signed(out, more - 1, high_bits(value))
}

/// How many bytes the shortest form of a number of 64 bits has.
#[tactic(auto, unfolding(crate::specs::Numbers::number_bytes))]
pub fn number_len(value: u64) -> u8
    ensures len { result ≡ length (number_bytes value) }
    ensures bound { result ≤ 10 }
{
    shortest_len(9, value)
}

fn shortest_len(more: u8, value: u64) -> u8
    requires { more ≤ 9 }
    ensures len { result ≡ length (shortest more value) }
    ensures bound { result ≤ more + 1 }
{
    if more == 0 || value < 128 {
        return 1;
    }
    1 + shortest_len(more - 1, value / 128)
}

/// How many bytes the shortest form of a signed number of 64 bits has.
#[tactic(auto, unfolding(crate::specs::Signed::signed_bytes))]
pub fn signed_len(value: i64) -> u8
    ensures len { result ≡ length (signed_bytes value) }
    ensures bound { result ≤ 10 }
{
    shortest_signed_len(9, value)
}

fn shortest_signed_len(more: u8, value: i64) -> u8
    requires { more ≤ 9 }
    ensures len { result ≡ length (shortest_signed more value) }
    ensures bound { result ≤ more + 1 }
{
    if more == 0 || is_digit(value) {
        return 1;
    }
    1 + shortest_signed_len(more - 1, high_bits(value))
}

/// The low seven bits.
fn low_bits(value: i64) -> u8
    ensures value { result ≡ low_bits value }
    ensures bound { result < 128 }
{
    value.rem_euclid(128) as u8
}

/// All bits but the low seven.
fn high_bits(value: i64) -> i64
    ensures { result ≡ int_div_euclid value (pos 128) }
{
    value.div_euclid(128)
}

/// Seven bits with a sign are enough.
fn is_digit(value: i64) -> bool
    ensures { result ≡ is_digit value }
{
    -64 <= value && value < 64
}
