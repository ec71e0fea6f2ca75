//! Runs of adapters that pass strings and vectors through memory.
use crate::run::{Answer, Value};
use crate::steps::Row;
use crate::vectors::{DONE, FAULT, NUMBER, OBJECT, OTHER, Vector, assert_vectors};
use std::alloc::AllocError;

const TEXT: Value = Value::Other("text");

const TEXT_MADE: Answer = Answer::Gives(TEXT);

const MALLOC: Answer = Answer::Gives(Value::Other("malloc"));

const REALLOC: Answer = Answer::Gives(Value::Other("realloc"));

/// Addresses and lengths.
const ADDRESS: Answer = Answer::Gives(Value::Number(64));

const LENGTH: Answer = Answer::Gives(Value::Number(4));

const NEXT_ADDRESS: Answer = Answer::Gives(Value::Number(96));

const NEXT_LENGTH: Answer = Answer::Gives(Value::Number(2));

const ABSENT: Answer = Answer::Gives(Value::Truth(true));

const THERE: Answer = Answer::Gives(Value::Truth(false));

const VIEW: Answer = Answer::Gives(Value::Other("view"));

const COPY: Answer = Answer::Gives(Value::Other("copy"));

/// A string is written to memory.
const PASSING: &[Row] = &[
    Row::Parameter(0),
    Row::Write("passStringToWasm0", &["malloc", "realloc"]),
    Row::Export("len", 2),
];

/// The exports are read in order, then the string is written, then the length that this left is read.
const PASSED: &[Vector] = &[
    (
        PASSING,
        &[TEXT],
        &[MALLOC, REALLOC, ADDRESS, LENGTH, NUMBER],
        "read wasm.malloc\nread wasm.realloc\ncall passStringToWasm0(text, malloc, realloc)\nread WASM_VECTOR_LEN\ncall wasm.len(64, 4)\nreturns 7",
    ),
    (
        PASSING,
        &[],
        &[MALLOC, REALLOC, ADDRESS, LENGTH, FAULT],
        "read wasm.malloc\nread wasm.realloc\ncall passStringToWasm0(undefined, malloc, realloc)\nread WASM_VECTOR_LEN\ncall wasm.len(64, 4)\nthrows fault",
    ),
    // Nothing comes after a throw: of the read of an export, of what allocates, within the helper, and of the length.
    (
        PASSING,
        &[TEXT],
        &[MALLOC, FAULT],
        "read wasm.malloc\nread wasm.realloc\nthrows fault",
    ),
    (
        PASSING,
        &[TEXT],
        &[MALLOC, REALLOC, FAULT],
        "read wasm.malloc\nread wasm.realloc\ncall passStringToWasm0(text, malloc, realloc)\nthrows fault",
    ),
    (
        PASSING,
        &[TEXT],
        &[MALLOC, REALLOC, ADDRESS, FAULT],
        "read wasm.malloc\nread wasm.realloc\ncall passStringToWasm0(text, malloc, realloc)\nread WASM_VECTOR_LEN\nthrows fault",
    ),
    // No more answers.
    (
        PASSING,
        &[TEXT],
        &[MALLOC, REALLOC, ADDRESS],
        "read wasm.malloc\nread wasm.realloc\ncall passStringToWasm0(text, malloc, realloc)\nread WASM_VECTOR_LEN\nended",
    ),
];

/// A string that may be absent.
const PASSING_UNLESS_ABSENT: &[Row] = &[
    Row::Parameter(0),
    Row::WriteUnlessAbsent("passStringToWasm0", &["malloc", "realloc"]),
    Row::Export("len", 2),
];

/// Nothing is written of what is absent, and no export is read for it; the length is read all the same.
const UNLESS_ABSENT: &[Vector] = &[
    (
        PASSING_UNLESS_ABSENT,
        &[],
        &[ABSENT, LENGTH, NUMBER],
        "call isLikeNone(undefined)\nread WASM_VECTOR_LEN\ncall wasm.len(0, 4)\nreturns 7",
    ),
    (
        PASSING_UNLESS_ABSENT,
        &[Value::Null],
        &[ABSENT, LENGTH, FAULT],
        "call isLikeNone(null)\nread WASM_VECTOR_LEN\ncall wasm.len(0, 4)\nthrows fault",
    ),
    (
        PASSING_UNLESS_ABSENT,
        &[TEXT],
        &[THERE, MALLOC, REALLOC, ADDRESS, LENGTH, NUMBER],
        "call isLikeNone(text)\nread wasm.malloc\nread wasm.realloc\ncall passStringToWasm0(text, malloc, realloc)\nread WASM_VECTOR_LEN\ncall wasm.len(64, 4)\nreturns 7",
    ),
    (
        PASSING_UNLESS_ABSENT,
        &[TEXT],
        &[FAULT],
        "call isLikeNone(text)\nthrows fault",
    ),
    (
        PASSING_UNLESS_ABSENT,
        &[TEXT],
        &[THERE, MALLOC, REALLOC, FAULT],
        "call isLikeNone(text)\nread wasm.malloc\nread wasm.realloc\ncall passStringToWasm0(text, malloc, realloc)\nthrows fault",
    ),
];

/// A vector is freed after the call.
const FREEING: &[Row] = &[
    Row::Parameter(0),
    Row::Write("passArray8ToWasm0", &["malloc"]),
    Row::Free("free", 1),
    Row::Export("f", 2),
];

/// Two are.
const FREEING_TWO: &[Row] = &[
    Row::Parameter(0),
    Row::Write("passArray8ToWasm0", &["malloc"]),
    Row::Free("free", 1),
    Row::Parameter(1),
    Row::Write("passArray8ToWasm0", &["malloc"]),
    Row::Free("free", 1),
    Row::Export("f", 4),
];

/// What was written is freed once, whatever the call comes to.
const FREED: &[Vector] = &[
    (
        FREEING,
        &[OBJECT],
        &[MALLOC, ADDRESS, LENGTH, NUMBER, DONE],
        "read wasm.malloc\ncall passArray8ToWasm0(object, malloc)\nread WASM_VECTOR_LEN\ncall wasm.f(64, 4)\ncall wasm.free(64, 4, 1)\nreturns 7",
    ),
    (
        FREEING,
        &[OBJECT],
        &[MALLOC, ADDRESS, LENGTH, FAULT, DONE],
        "read wasm.malloc\ncall passArray8ToWasm0(object, malloc)\nread WASM_VECTOR_LEN\ncall wasm.f(64, 4)\ncall wasm.free(64, 4, 1)\nthrows fault",
    ),
    // Nothing is freed where nothing was written.
    (
        FREEING,
        &[OBJECT],
        &[MALLOC, FAULT],
        "read wasm.malloc\ncall passArray8ToWasm0(object, malloc)\nthrows fault",
    ),
    // A throw while it is freed replaces the result, and another throw.
    (
        FREEING,
        &[OBJECT],
        &[MALLOC, ADDRESS, LENGTH, NUMBER, FAULT],
        "read wasm.malloc\ncall passArray8ToWasm0(object, malloc)\nread WASM_VECTOR_LEN\ncall wasm.f(64, 4)\ncall wasm.free(64, 4, 1)\nthrows fault",
    ),
    (
        FREEING,
        &[OBJECT],
        &[MALLOC, ADDRESS, LENGTH, Answer::Throws(OTHER), FAULT],
        "read wasm.malloc\ncall passArray8ToWasm0(object, malloc)\nread WASM_VECTOR_LEN\ncall wasm.f(64, 4)\ncall wasm.free(64, 4, 1)\nthrows fault",
    ),
    // No more answers.
    (
        FREEING,
        &[OBJECT],
        &[MALLOC, ADDRESS, LENGTH],
        "read wasm.malloc\ncall passArray8ToWasm0(object, malloc)\nread WASM_VECTOR_LEN\ncall wasm.f(64, 4)\nended",
    ),
    // The one that was written last is freed first, and the first of them where the second can't be written.
    (
        FREEING_TWO,
        &[OBJECT, OTHER],
        &[
            MALLOC,
            ADDRESS,
            LENGTH,
            MALLOC,
            NEXT_ADDRESS,
            NEXT_LENGTH,
            NUMBER,
            DONE,
            DONE,
        ],
        "read wasm.malloc\ncall passArray8ToWasm0(object, malloc)\nread WASM_VECTOR_LEN\nread wasm.malloc\ncall passArray8ToWasm0(other, malloc)\nread WASM_VECTOR_LEN\ncall wasm.f(64, 4, 96, 2)\ncall wasm.free(96, 2, 1)\ncall wasm.free(64, 4, 1)\nreturns 7",
    ),
    (
        FREEING_TWO,
        &[OBJECT, OTHER],
        &[MALLOC, ADDRESS, LENGTH, MALLOC, FAULT, DONE],
        "read wasm.malloc\ncall passArray8ToWasm0(object, malloc)\nread WASM_VECTOR_LEN\nread wasm.malloc\ncall passArray8ToWasm0(other, malloc)\ncall wasm.free(64, 4, 1)\nthrows fault",
    ),
];

/// A string, and a vector, of which an export gives the address and an argument the length.
const READING: &[Row] = &[
    Row::Export("name", 0),
    Row::Parameter(0),
    Row::Free("free", 1),
    Row::Helper("getStringFromWasm0", 2),
];

const COPYING: &[Row] = &[
    Row::Export("name", 0),
    Row::Parameter(0),
    Row::Free("free", 1),
    Row::Copied("getArrayU8FromWasm0"),
];

/// What comes out is made before the memory is freed: a string in one call, a copy of a vector's view in two.
const MADE: &[Vector] = &[
    (
        READING,
        &[Value::Number(4)],
        &[ADDRESS, TEXT_MADE, DONE],
        "call wasm.name()\ncall getStringFromWasm0(64, 4)\ncall wasm.free(64, 4, 1)\nreturns text",
    ),
    (
        READING,
        &[Value::Number(4)],
        &[ADDRESS, FAULT, DONE],
        "call wasm.name()\ncall getStringFromWasm0(64, 4)\ncall wasm.free(64, 4, 1)\nthrows fault",
    ),
    (
        COPYING,
        &[Value::Number(4)],
        &[ADDRESS, VIEW, COPY, DONE],
        "call wasm.name()\ncall getArrayU8FromWasm0(64, 4)\ncall view.slice()\ncall wasm.free(64, 4, 1)\nreturns copy",
    ),
    (
        COPYING,
        &[Value::Number(4)],
        &[ADDRESS, FAULT, DONE],
        "call wasm.name()\ncall getArrayU8FromWasm0(64, 4)\ncall wasm.free(64, 4, 1)\nthrows fault",
    ),
    (
        COPYING,
        &[Value::Number(4)],
        &[ADDRESS, VIEW, FAULT, DONE],
        "call wasm.name()\ncall getArrayU8FromWasm0(64, 4)\ncall view.slice()\ncall wasm.free(64, 4, 1)\nthrows fault",
    ),
    // Nothing was made that has to be freed.
    (
        COPYING,
        &[Value::Number(4)],
        &[FAULT],
        "call wasm.name()\nthrows fault",
    ),
];

#[test]
fn strings_and_vectors_in_memory(rt: HostRuntime) -> Result<(), AllocError> {
    assert_vectors(&rt, rt.alloc(), &[PASSED, UNLESS_ABSENT, FREED, MADE])
}
