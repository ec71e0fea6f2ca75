//! Reading numbers, truths, texts, lists and maps.
ghost use Rattle.std.specs.Prelude.{◌≡◌, [], IfOk, None, Some, map};
ghost use Rattle.serde_json.specs.View.{view, members_view};
ghost use Rattle.glue_json.specs.Reading.{read_all, list_of, map_of, put_members, nullable, u32_of, i64_of};

use crate::counts::Counts;
use crate::reads::{LowerFault, Reads};
use serde_json::Value;
use std::alloc::Global;
use values::{Map, Seq, Text};

impl Reads for u32 {
    ghost reads = { λ _ d. u32_of d };

    fn read(_: Global, _: &Counts, value: &Value) -> Result<Self, LowerFault> {
        match value.as_u64() {
            Some(number) => u32::try_from(number).map_err(|_| LowerFault::Failed),
            None => Err(LowerFault::Failed),
        }
    }
}

impl Reads for i64 {
    ghost reads = { λ _ d. i64_of d };

    fn read(_: Global, _: &Counts, value: &Value) -> Result<Self, LowerFault> {
        value.as_i64().ok_or(LowerFault::Failed)
    }
}

impl Reads for bool {
    ghost use Rattle.serde_json.specs.Find.{as_bool};

    ghost reads = { λ _ d. as_bool d };

    fn read(_: Global, _: &Counts, value: &Value) -> Result<Self, LowerFault> {
        value.as_bool().ok_or(LowerFault::Failed)
    }
}

impl Reads for Text {
    ghost use Rattle.serde_json.specs.Find.{as_str};

    ghost reads = { λ _ d. as_str d };

    fn read(alloc: Global, _: &Counts, value: &Value) -> Result<Self, LowerFault> {
        match value.as_str() {
            Some(text) => Ok(Text::from_str(alloc, text)?),
            None => Err(LowerFault::Failed),
        }
    }
}

impl<T: Reads> Reads for Option<T> {
    ghost reads = { λ c d. nullable (T.reads c) d };

    fn read(alloc: Global, counts: &Counts, value: &Value) -> Result<Self, LowerFault> {
        if value.is_null() {
            return Ok(None);
        }
        Ok(Some(T::read(alloc, counts, value)?))
    }
}

// Each value of a list.
fn read_items<T: Reads>(
    alloc: Global,
    counts: &Counts,
    values: &[Value],
) -> Result<Vec<T>, LowerFault>
    ensures ok { IfOk result (λ xs. read_all (T.reads counts.now) (map view values.now) ≡ Some xs.items) }
    ensures failed { result ≡ Err LowerFault.Failed → read_all (T.reads counts.now) (map view values.now) ≡ None }
{
    let mut list = Vec::new(alloc);
    for value in values {
        list.push(T::read(alloc, counts, value)?)?;
    }
    Ok(list)
}

impl<T: Reads> Reads for Seq<T> {
    ghost reads = { λ c d. list_of (T.reads c) d };

    #[tactic(auto, using(crate::proofs::Lists::list_of_items))]
    fn read(alloc: Global, counts: &Counts, value: &Value) -> Result<Self, LowerFault> {
        match value.as_array() {
            Some(values) => Ok(Seq::from_vec(read_items(alloc, counts, values.as_slice())?)),
            None => Err(LowerFault::Failed),
        }
    }
}

// The members of an object by their keys.
fn read_members<T: Reads>(
    alloc: Global,
    counts: &Counts,
    members: &serde_json::Map<String, Value>,
) -> Result<Map<Text, T>, LowerFault>
    ensures ok { IfOk result (λ m. put_members (T.reads counts.now) [] (members_view members.now.entries) ≡ Some m) }
    ensures failed { result ≡ Err LowerFault.Failed → put_members (T.reads counts.now) [] (members_view members.now.entries) ≡ None }
{
    let mut entries = Map::new(alloc);
    for (key, member) in members.iter() {
        let name = Text::from_str(alloc, key.as_str())?;
        entries.insert(name, T::read(alloc, counts, member)?)?;
    }
    Ok(entries)
}

impl<T: Reads> Reads for Map<Text, T> {
    ghost reads = { λ c d. map_of (T.reads c) d };

    fn read(alloc: Global, counts: &Counts, value: &Value) -> Result<Self, LowerFault> {
        match value.as_object() {
            Some(members) => read_members(alloc, counts, members),
            None => Err(LowerFault::Failed),
        }
    }
}
