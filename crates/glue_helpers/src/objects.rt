//! The texts of helpers that look into objects. None has a stand-in.

/// `debugString(val)`: a text for a value of any kind, for people.
pub const DEBUG_STRING: &str = r#"function b@debugString(l@val) {
switch (typeof val) {
case "number":
case "boolean":
case "undefined":
return `${val}`;
case "string":
return h@JSON.stringify(val);
case "bigint":
return `${val}n`;
case "symbol":
return val.description !== h@undefined
? `Symbol(${val.description})`
: "Symbol";
case "function":
return typeof val.name === "string" && val.name !== ""
? `Function(${val.name})`
: "Function";
case "object": {
if (val === null) {
return "null";
}
if (h@Array.isArray(val)) {
return "[" + h@Array.from(val, u@debugString).join(", ") + "]";
}
if (val instanceof h@Error) {
return `${val.name}: ${val.message}\n${val.stack}`;
}
const l@toStringOutput = h@toString.call(val);
const l@className = r@1.exec(toStringOutput)?.[1];
if (className === h@undefined) {
return toStringOutput;
}
if (className === "Object") {
try {
return "Object(" + h@JSON.stringify(val) + ")";
} catch (l@_) {
return "Object";
}
}
return className;
}
}
}
"#;

/// `GetOwnOrInheritedPropertyDescriptor(obj, id)`: the descriptor of a property of an object, or of the next object
/// along its prototypes that has it; an empty object where none has it.
pub const GET_INHERITED_DESCRIPTOR: &str =
    r#"function b@GetOwnOrInheritedPropertyDescriptor(l@obj, l@id) {
while (obj) {
let l@desc = h@Object.getOwnPropertyDescriptor(obj, id);
if (desc) return desc;
obj = h@Object.getPrototypeOf(obj);
}
return {};
}
"#;
