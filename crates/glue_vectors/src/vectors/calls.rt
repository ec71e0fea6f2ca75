//! Runs of adapters that pass numbers, truths and objects.
use crate::run::{Answer, Value};
use crate::steps::Row;
use crate::vectors::{DONE, FAULT, NUMBER, OBJECT, OTHER, Vector, assert_vectors};
use std::alloc::AllocError;

const HEAP: Answer = Answer::Gives(Value::Other("heap"));

/// One object is lent to an export.
const LENDING: &[Row] = &[Row::Parameter(0), Row::Lent, Row::Export("f", 1)];

/// Two are.
const LENDING_TWO: &[Row] = &[
    Row::Parameter(0),
    Row::Lent,
    Row::Parameter(1),
    Row::Lent,
    Row::Export("f", 2),
];

/// The slots of lent objects, and handles of given ones.
const FIRST: Answer = Answer::Gives(Value::Number(1023));

const SECOND: Answer = Answer::Gives(Value::Number(1022));

const HANDLE: Answer = Answer::Gives(Value::Number(1028));

const NEXT: Answer = Answer::Gives(Value::Number(1029));

const MINUS_ONE: Answer = Answer::Gives(Value::Number(-1));

const ZERO: Answer = Answer::Gives(Value::Number(0));

const FIVE: Answer = Answer::Gives(Value::Number(5));

/// What is lent is given back, whatever comes in between.
const LENT: &[Vector] = &[
    (
        LENDING,
        &[OBJECT],
        &[FIRST, NUMBER, HEAP, FIRST, DONE, DONE],
        "call addBorrowedObject(object)\ncall wasm.f(1023)\nread heap\nread stack_pointer\nwrite stack_pointer 1024\nwrite heap[1023] undefined\nreturns 7",
    ),
    // The export throws: the trace ends with the slot that is given back, and the throw stands.
    (
        LENDING,
        &[OBJECT],
        &[FIRST, FAULT, HEAP, FIRST, DONE, DONE],
        "call addBorrowedObject(object)\ncall wasm.f(1023)\nread heap\nread stack_pointer\nwrite stack_pointer 1024\nwrite heap[1023] undefined\nthrows fault",
    ),
    // Nothing is given back where nothing could be lent.
    (
        LENDING,
        &[OBJECT],
        &[FAULT, NUMBER],
        "call addBorrowedObject(object)\nthrows fault",
    ),
    // A throw while it is given back replaces the result, and another throw.
    (
        LENDING,
        &[OBJECT],
        &[FIRST, NUMBER, FAULT],
        "call addBorrowedObject(object)\ncall wasm.f(1023)\nread heap\nthrows fault",
    ),
    (
        LENDING,
        &[OBJECT],
        &[FIRST, Answer::Throws(OTHER), HEAP, FAULT],
        "call addBorrowedObject(object)\ncall wasm.f(1023)\nread heap\nread stack_pointer\nthrows fault",
    ),
    // No more answers.
    (
        LENDING,
        &[OBJECT],
        &[FIRST],
        "call addBorrowedObject(object)\ncall wasm.f(1023)\nended",
    ),
    // The one that was lent last is given back first, and each of them where a throw comes in between.
    (
        LENDING_TWO,
        &[OBJECT, OTHER],
        &[
            FIRST, SECOND, NUMBER, HEAP, SECOND, DONE, DONE, HEAP, FIRST, DONE, DONE,
        ],
        "call addBorrowedObject(object)\ncall addBorrowedObject(other)\ncall wasm.f(1023, 1022)\nread heap\nread stack_pointer\nwrite stack_pointer 1023\nwrite heap[1022] undefined\nread heap\nread stack_pointer\nwrite stack_pointer 1024\nwrite heap[1023] undefined\nreturns 7",
    ),
    (
        LENDING_TWO,
        &[OBJECT, OTHER],
        &[FIRST, FAULT, HEAP, FIRST, DONE, DONE],
        "call addBorrowedObject(object)\ncall addBorrowedObject(other)\nread heap\nread stack_pointer\nwrite stack_pointer 1024\nwrite heap[1023] undefined\nthrows fault",
    ),
];

/// A value and a flag, and a call behind them.
const UNWRAPPING: &[Row] = &[
    Row::Parameter(0),
    Row::Parameter(1),
    Row::Unwrapped,
    Row::Export("f", 0),
];

/// An object is lent before.
const LENDING_AND_UNWRAPPING: &[Row] = &[
    Row::Parameter(0),
    Row::Lent,
    Row::Parameter(1),
    Row::Parameter(1),
    Row::Unwrapped,
    Row::Export("f", 1),
];

/// A flag that is true throws the value that a handle stands for, and the export isn't called then.
const UNWRAPPED: &[Vector] = &[
    (
        UNWRAPPING,
        &[Value::Number(1028), Value::Number(0)],
        &[NUMBER],
        "call wasm.f()\nreturns 7",
    ),
    (
        UNWRAPPING,
        &[Value::Number(1028), Value::Number(1)],
        &[Answer::Gives(OBJECT), NUMBER],
        "call takeObject(1028)\nthrows object",
    ),
    (
        UNWRAPPING,
        &[Value::Number(1028), Value::Truth(true)],
        &[FAULT],
        "call takeObject(1028)\nthrows fault",
    ),
    // What is lent before that is given back.
    (
        LENDING_AND_UNWRAPPING,
        &[OBJECT, Value::Number(1)],
        &[FIRST, Answer::Gives(OTHER), HEAP, FIRST, DONE, DONE],
        "call addBorrowedObject(object)\ncall takeObject(1)\nread heap\nread stack_pointer\nwrite stack_pointer 1024\nwrite heap[1023] undefined\nthrows other",
    ),
    // Without arguments there is no flag.
    (UNWRAPPING, &[], &[NUMBER], "call wasm.f()\nreturns 7"),
];

/// Numbers and truths, and objects by their handles.
const PASSED: &[Vector] = &[
    (
        &[
            Row::Parameter(0),
            Row::Helper("addHeapObject", 1),
            Row::Export("f", 1),
            Row::Helper("takeObject", 1),
        ],
        &[OBJECT],
        &[HANDLE, NEXT, Answer::Gives(OTHER)],
        "call addHeapObject(object)\ncall wasm.f(1028)\ncall takeObject(1029)\nreturns other",
    ),
    (
        &[Row::Parameter(0), Row::Export("f", 1), Row::Unsigned],
        &[Value::Number(3)],
        &[MINUS_ONE],
        "call wasm.f(3)\nreturns 4294967295",
    ),
    (
        &[Row::Export("f", 0), Row::NotZero],
        &[],
        &[MINUS_ONE],
        "call wasm.f()\nreturns true",
    ),
    (
        &[Row::Export("f", 0), Row::NotZero, Row::Unsigned],
        &[],
        &[ZERO],
        "call wasm.f()\nreturns 0",
    ),
    (
        &[Row::Export("f", 0), Row::Unsigned64],
        &[],
        &[MINUS_ONE, FIVE],
        "call wasm.f()\ncall BigInt.asUintN(64, -1)\nreturns 5",
    ),
];

#[test]
fn numbers_truths_and_objects(rt: HostRuntime) -> Result<(), AllocError> {
    assert_vectors(&rt, rt.alloc(), &[LENT, UNWRAPPED, PASSED])
}
