//! Reading the keys of an object.
ghost use Rattle.std.specs.Prelude.{◌≡◌, [], IfOk, None, Some, map, bytes_eq, string_bytes, false};
ghost use Rattle.std.specs.List.{list_any, list_all};
ghost use Rattle.std.specs.BTreeMap.{keys};
ghost use Rattle.serde_json.specs.View.{view};
ghost use Rattle.serde_json.specs.Find.{as_bool};
ghost use Rattle.glue_json.specs.Reading.{field, field_or, list_at, maybe_at, has_only, only};

use crate::counts::Counts;
use crate::reads::{LowerFault, Reads};
use serde_json::{Map, Value};
use std::alloc::Global;
use values::Seq;

/// What a key holds, which must stand.
pub fn required<T: Reads>(
    alloc: Global,
    counts: &Counts,
    object: &Value,
    key: &str,
) -> Result<T, LowerFault>
    ensures ok { IfOk result (λ x. field key.now (T.reads counts.now) (view object.now) ≡ Some x) }
    ensures failed { result ≡ Err LowerFault.Failed → field key.now (T.reads counts.now) (view object.now) ≡ None }
{
    match object.get(key) {
        Some(value) => T::read(alloc, counts, value),
        None => Err(LowerFault::Failed),
    }
}

/// What a key holds, or this value where the key is absent.
pub fn optional<T: Reads>(
    alloc: Global,
    counts: &Counts,
    object: &Value,
    key: &str,
    absent: T,
) -> Result<T, LowerFault>
    ensures ok { IfOk result (λ x. field_or key.now (T.reads counts.now) absent (view object.now) ≡ Some x) }
    ensures failed { result ≡ Err LowerFault.Failed → field_or key.now (T.reads counts.now) absent (view object.now) ≡ None }
{
    match object.get(key) {
        Some(value) => T::read(alloc, counts, value),
        None => Ok(absent),
    }
}

/// The list that a key holds, or no items where the key is absent.
pub fn list<T: Reads>(
    alloc: Global,
    counts: &Counts,
    object: &Value,
    key: &str,
) -> Result<Seq<T>, LowerFault>
    ensures ok { IfOk result (λ xs. list_at key.now (T.reads counts.now) (view object.now) ≡ Some xs) }
    ensures failed { result ≡ Err LowerFault.Failed → list_at key.now (T.reads counts.now) (view object.now) ≡ None }
{
    optional(alloc, counts, object, key, Seq::new(alloc))
}

/// What a key holds, or nothing where it is `null` or absent.
pub fn maybe<T: Reads>(
    alloc: Global,
    counts: &Counts,
    object: &Value,
    key: &str,
) -> Result<Option<T>, LowerFault>
    ensures ok { IfOk result (λ x. maybe_at key.now (T.reads counts.now) (view object.now) ≡ Some x) }
    ensures failed { result ≡ Err LowerFault.Failed → maybe_at key.now (T.reads counts.now) (view object.now) ≡ None }
{
    optional(alloc, counts, object, key, None)
}

/// The truth that a key holds, or false where the key is absent.
pub fn flag(alloc: Global, counts: &Counts, object: &Value, key: &str) -> Result<bool, LowerFault>
    ensures ok { IfOk result (λ x. field_or key.now as_bool false (view object.now) ≡ Some x) }
    ensures failed { result ≡ Err LowerFault.Failed → field_or key.now as_bool false (view object.now) ≡ None }
{
    optional(alloc, counts, object, key, false)
}

// Whether a key is one of these.
fn is_allowed(key: &str, allowed: &[&str]) -> bool
    ensures { result ≡ list_any (λ a. bytes_eq a.now key.now) allowed.now }
{
    allowed.iter().any(|a| *a == key)
}

// Whether each key is one of these.
fn all_allowed(members: &Map<String, Value>, allowed: &[&str]) -> bool
    ensures { result ≡ list_all (λ k. list_any (λ a. bytes_eq a.now (string_bytes k)) allowed.now) (keys members.now) }
{
    members.keys().all(|key| is_allowed(key.as_str(), allowed))
}

/// Whether the value is an object that has these keys alone.
pub fn has_keys_alone(object: &Value, allowed: &[&str]) -> bool
    ensures { result ≡ has_only (λ k. list_any (λ a. bytes_eq a.now k) allowed.now) (view object.now) }
{
    match object.as_object() {
        Some(members) => all_allowed(members, allowed),
        None => false,
    }
}
