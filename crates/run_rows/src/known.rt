//! Keys that are read.
use rows::RowFault;
use serde_json::Value;

/// That the object has no key beside those of these lists: one that nothing reads would be passed over.
pub fn only_known(object: &Value, lists: &[&[&str]]) -> Result<(), RowFault> {
    let Value::Object(members) = object else {
        return Err(RowFault::Row);
    };
    for (key, _) in members.iter() {
        let key = key.as_str();
        if !lists.iter().any(|list| list.contains(&key)) {
            return Err(RowFault::Row);
        }
    }
    Ok(())
}
