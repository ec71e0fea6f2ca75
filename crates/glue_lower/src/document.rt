//! Reading a description from bytes.
ghost use Rattle.std.specs.Prelude.{◌≡◌, IfOk, None, Some, option_and_then};
ghost use Rattle.serde_json.specs.Read.{read};
ghost use Rattle.glue_json.specs.Description.{description_of};
ghost use Rattle.glue_lower.specs.Lowering.{description_in};

use glue_json::{Counts, LowerFault, Reads};
use glue_shared::Description;
use serde_json::Value;
use std::alloc::Global;

fn read_text(alloc: Global, counts: &Counts, text: &str) -> Result<Description, LowerFault>
    ensures ok { IfOk result (λ d. option_and_then (description_of counts.now) (read text.now) ≡ Some d) }
    ensures failed { result ≡ Err LowerFault.Failed → option_and_then (description_of counts.now) (read text.now) ≡ None }
{
    match Value::from_str(alloc, text) {
        Ok(value) => Description::read(alloc, counts, &value),
        Err(error) => {
            if error.is_memory() {
                Err(LowerFault::OutOfMemory)
            } else {
                Err(LowerFault::Failed)
            }
        }
    }
}

/// The description that these bytes are, of a module with so many entries. Fails where they are none.
#[tactic(auto, using(crate::proofs::Utf8::is_utf8_true, crate::proofs::Utf8::is_utf8_false))]
pub fn read_description(
    alloc: Global,
    counts: &Counts,
    bytes: &[u8],
) -> Result<Description, LowerFault>
    ensures ok { IfOk result (λ d. description_in counts.now bytes.now ≡ Some d) }
    ensures failed { result ≡ Err LowerFault.Failed → description_in counts.now bytes.now ≡ None }
{
    match std::str::from_utf8(bytes) {
        Ok(text) => read_text(alloc, counts, text),
        Err(_) => Err(LowerFault::Failed),
    }
}
