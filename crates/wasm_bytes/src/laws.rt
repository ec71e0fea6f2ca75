//! Numbers that are written are read again (WebAssembly core specification, 5.2.2).

ghost use Rattle.std.specs.Prelude.{ℕ, ◌^◌, ◌<◌, ℤ};
ghost use Rattle.wasm_bytes.specs.Numbers.{number32, number64, number_bytes};
ghost use Rattle.wasm_bytes.specs.Signed.{signed32, signed33, signed64, signed_bytes, IsWithin};
ghost use Rattle.wasm_bytes.specs.Reads.{Reads};

/// The shortest form of a number is read as that number, wherever it stands.
pub fn numbers_are_read_again()
    ensures unsigned32 { (n : ℕ) → n < 2 ^ 32 → Reads number32 (number_bytes n) n }
    ensures unsigned64 { (n : ℕ) → n < 2 ^ 64 → Reads number64 (number_bytes n) n }
    ensures signed32 { (z : ℤ) → IsWithin (2 ^ 31) z → Reads signed32 (signed_bytes z) z }
    ensures signed33 { (z : ℤ) → IsWithin (2 ^ 32) z → Reads signed33 (signed_bytes z) z }
    ensures signed64 { (z : ℤ) → IsWithin (2 ^ 63) z → Reads signed64 (signed_bytes z) z }
{}
