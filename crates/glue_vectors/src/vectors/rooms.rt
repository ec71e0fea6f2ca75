//! Runs of adapters whose results stand in room on the stack of the module, of those that look texts up in lists, and of those that make closures.
use crate::run::{Answer, Value};
use crate::steps::Row;
use crate::vectors::{DONE, FAULT, NUMBER, OBJECT, OTHER, Vector, assert_vectors};
use std::alloc::AllocError;

const ROOM: Answer = Answer::Gives(Value::Number(64));

const VIEW: Answer = Answer::Gives(Value::Other("view"));

const RESULT: Answer = Answer::Gives(Value::Number(-3));

/// A result is read from room of 16 bytes.
const LOADING: &[Row] = &[
    Row::Room(16),
    Row::Export("f", 1),
    Row::Load32("getDataViewMemory0", 8),
];

/// The room is given back once it was taken, whatever comes after.
const LOADED: &[Vector] = &[
    (
        LOADING,
        &[],
        &[ROOM, NUMBER, VIEW, RESULT, DONE],
        "call wasm.__wbindgen_add_to_stack_pointer(-16)\ncall wasm.f(64)\ncall getDataViewMemory0()\ncall view.getInt32(72, true)\ncall wasm.__wbindgen_add_to_stack_pointer(16)\nreturns -3",
    ),
    // It isn't where it couldn't be taken.
    (
        LOADING,
        &[],
        &[FAULT],
        "call wasm.__wbindgen_add_to_stack_pointer(-16)\nthrows fault",
    ),
    // Throws of the export, of the view, and of what reads.
    (
        LOADING,
        &[],
        &[ROOM, FAULT, DONE],
        "call wasm.__wbindgen_add_to_stack_pointer(-16)\ncall wasm.f(64)\ncall wasm.__wbindgen_add_to_stack_pointer(16)\nthrows fault",
    ),
    (
        LOADING,
        &[],
        &[ROOM, NUMBER, FAULT, DONE],
        "call wasm.__wbindgen_add_to_stack_pointer(-16)\ncall wasm.f(64)\ncall getDataViewMemory0()\ncall wasm.__wbindgen_add_to_stack_pointer(16)\nthrows fault",
    ),
    (
        LOADING,
        &[],
        &[ROOM, NUMBER, VIEW, FAULT, DONE],
        "call wasm.__wbindgen_add_to_stack_pointer(-16)\ncall wasm.f(64)\ncall getDataViewMemory0()\ncall view.getInt32(72, true)\ncall wasm.__wbindgen_add_to_stack_pointer(16)\nthrows fault",
    ),
    // A throw while it is given back replaces the result, and another throw.
    (
        LOADING,
        &[],
        &[ROOM, NUMBER, VIEW, RESULT, FAULT],
        "call wasm.__wbindgen_add_to_stack_pointer(-16)\ncall wasm.f(64)\ncall getDataViewMemory0()\ncall view.getInt32(72, true)\ncall wasm.__wbindgen_add_to_stack_pointer(16)\nthrows fault",
    ),
    (
        LOADING,
        &[],
        &[ROOM, Answer::Throws(OTHER), FAULT],
        "call wasm.__wbindgen_add_to_stack_pointer(-16)\ncall wasm.f(64)\ncall wasm.__wbindgen_add_to_stack_pointer(16)\nthrows fault",
    ),
    // No more answers.
    (
        LOADING,
        &[],
        &[ROOM, NUMBER],
        "call wasm.__wbindgen_add_to_stack_pointer(-16)\ncall wasm.f(64)\ncall getDataViewMemory0()\nended",
    ),
];

/// The second argument is written behind the first.
const STORING: &[Row] = &[Row::Parameter(1), Row::Store32("getDataViewMemory0", 4)];

const PLACES: &[Value] = &[Value::Number(64), Value::Number(9)];

const STORED: &[Vector] = &[
    (
        STORING,
        PLACES,
        &[VIEW, DONE],
        "call getDataViewMemory0()\ncall view.setInt32(68, 9, true)\nnothing",
    ),
    (
        STORING,
        PLACES,
        &[VIEW, FAULT],
        "call getDataViewMemory0()\ncall view.setInt32(68, 9, true)\nthrows fault",
    ),
];

const COLORS: &str = "__wbindgen_enum_Color";

const TEXTS: Answer = Answer::Gives(Value::Other("texts"));

const TEXT: Value = Value::Other("red");

/// The list is read, and then it is asked.
const LISTED: &[Vector] = &[
    (
        &[Row::Parameter(0), Row::IndexOf(COLORS)],
        &[TEXT],
        &[TEXTS, NUMBER],
        "read __wbindgen_enum_Color\ncall texts.indexOf(red)\nreturns 7",
    ),
    (
        &[Row::Parameter(0), Row::ItemAt(COLORS)],
        &[Value::Number(2)],
        &[TEXTS, Answer::Gives(TEXT)],
        "read __wbindgen_enum_Color\nread texts[2]\nreturns red",
    ),
    (
        &[Row::Parameter(0), Row::ItemAt(COLORS)],
        &[Value::Number(2)],
        &[FAULT],
        "read __wbindgen_enum_Color\nthrows fault",
    ),
];

/// A closure is made of both arguments, an address and what goes with it.
const MAKING: &[Row] = &[
    Row::Parameter(0),
    Row::Parameter(1),
    Row::Closure("makeMutClosure", "on_click"),
];

const ADDRESS_AND_MORE: &[Value] = &[Value::Number(64), Value::Number(9)];

const FUNCTION: Answer = Answer::Gives(Value::Other("function"));

/// The function of the file is read, and then the helper is called with it.
const MADE: &[Vector] = &[
    (
        MAKING,
        ADDRESS_AND_MORE,
        &[FUNCTION, Answer::Gives(OBJECT)],
        "read on_click\ncall makeMutClosure(64, 9, function)\nreturns object",
    ),
    // Throws of both, and no answer of the helper.
    (
        MAKING,
        ADDRESS_AND_MORE,
        &[FAULT],
        "read on_click\nthrows fault",
    ),
    (
        MAKING,
        ADDRESS_AND_MORE,
        &[FUNCTION, FAULT],
        "read on_click\ncall makeMutClosure(64, 9, function)\nthrows fault",
    ),
    (
        MAKING,
        ADDRESS_AND_MORE,
        &[FUNCTION],
        "read on_click\ncall makeMutClosure(64, 9, function)\nended",
    ),
];

#[test]
fn results_in_rooms_lists_and_closures(rt: HostRuntime) -> Result<(), AllocError> {
    assert_vectors(&rt, rt.alloc(), &[LOADED, STORED, LISTED, MADE])
}
