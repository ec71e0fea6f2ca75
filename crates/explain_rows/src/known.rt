//! Keys that are read.
use rows::RowFault;
use serde_json::Value;

/// That the object has no key beside these: one that nothing reads would be passed over.
pub fn only_known(object: &Value, keys: &[&str]) -> Result<(), RowFault> {
    let Value::Object(members) = object else {
        return Err(RowFault::Row);
    };
    for (key, _) in members.iter() {
        let key = key.as_str();
        if !(&*keys).contains(&key) {
            return Err(RowFault::Row);
        }
    }
    Ok(())
}
