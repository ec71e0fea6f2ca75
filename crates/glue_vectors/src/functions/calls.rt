//! Functions that call exports, imports and helpers.
use crate::functions::{Function, assert_functions};
use crate::steps::{Import, Row};
use std::alloc::AllocError;

const LOG: Import = Import {
    adapter: 2,
    global: "console",
    fields: &["log"],
    params: 1,
    has_result: false,
};

const MAX: Import = Import {
    adapter: 3,
    global: "globalThis",
    fields: &["Math", "max"],
    params: 2,
    has_result: true,
};

// a field that is no identifier
const KEBAB: Import = Import {
    adapter: 4,
    global: "globalThis",
    fields: &["a-b"],
    params: 1,
    has_result: true,
};

// a field with dots, of which each part is a property
const SETTER: Import = Import {
    adapter: 5,
    global: "Map",
    fields: &["prototype.set.call"],
    params: 3,
    has_result: false,
};

// a computed key, which stands whole
const ITERATOR: Import = Import {
    adapter: 6,
    global: "document",
    fields: &["all", "[Symbol.iterator]", "class"],
    params: 0,
    has_result: false,
};

const CALLS: &[Function] = &[
    // exports
    (
        &[
            Row::Parameter(0),
            Row::Unchanged,
            Row::Parameter(1),
            Row::Unchanged,
            Row::Export("add", 2),
            Row::Unchanged,
        ],
        &["a", "b"],
        "(a, b) {\nconst ret = wasm.add(a, b);\nreturn ret;\n}",
    ),
    (&[Row::Done("tick", 0)], &[], "() {\nwasm.tick();\n}"),
    (
        &[
            Row::Parameter(0),
            Row::Unchanged,
            Row::Parameter(1),
            Row::Unchanged,
            Row::Parameter(2),
            Row::Unchanged,
            Row::Parameter(3),
            Row::Unchanged,
            Row::Export("f", 4),
            Row::Unchanged,
        ],
        &["ret", "ret", "wasm", "class"],
        "(ret, ret2, wasm2, _class) {\nconst ret3 = wasm.f(ret, ret2, wasm2, _class);\nreturn ret3;\n}",
    ),
    // imports
    (
        &[Row::Parameter(0), Row::Unchanged, Row::Import(&LOG)],
        &["arg0"],
        "(arg0) {\nconsole.log(arg0);\n}",
    ),
    (
        &[
            Row::Parameter(0),
            Row::Unchanged,
            Row::Parameter(1),
            Row::Unchanged,
            Row::Import(&MAX),
            Row::Unchanged,
        ],
        &["globalThis", "y"],
        "(globalThis2, y) {\nconst ret = globalThis.Math.max(globalThis2, y);\nreturn ret;\n}",
    ),
    // fields of any text
    (
        &[
            Row::Parameter(0),
            Row::Unchanged,
            Row::Import(&KEBAB),
            Row::Unchanged,
        ],
        &["a"],
        "(a) {\nconst ret = globalThis[\"a-b\"](a);\nreturn ret;\n}",
    ),
    (
        &[
            Row::Parameter(0),
            Row::Unchanged,
            Row::Parameter(1),
            Row::Unchanged,
            Row::Parameter(2),
            Row::Unchanged,
            Row::Import(&SETTER),
        ],
        &["map", "key", "value"],
        "(map, key, value) {\nMap.prototype.set.call(map, key, value);\n}",
    ),
    (
        &[Row::Import(&ITERATOR)],
        &[],
        "() {\ndocument.all[Symbol.iterator][\"class\"]();\n}",
    ),
    // locals of statements are drawn before the answer, and the second call has what the first gives
    (
        &[Row::Parameter(0), Row::Kept, Row::Kept],
        &["val"],
        "(val) {\nconst val2 = val;\nconst ret = val2.x;\nconst val3 = ret;\nconst ret2 = val3.x;\nreturn ret2;\n}",
    ),
    // two objects are lent to an export, and the object that it gives is taken
    (
        &[
            Row::Parameter(0),
            Row::Lent,
            Row::Parameter(1),
            Row::Lent,
            Row::Export("f", 2),
            Row::Helper("takeObject", 1),
        ],
        &["v0", "heap"],
        "(v0, heap2) {\nconst v02 = addBorrowedObject(v0);\ntry {\nconst v1 = addBorrowedObject(heap2);\ntry {\nconst ret = wasm.f(v02, v1);\nconst v2 = takeObject(ret);\nreturn v2;\n} finally {\nheap[stack_pointer++] = undefined;\n}\n} finally {\nheap[stack_pointer++] = undefined;\n}\n}",
    ),
    // a flag decides whether an object is thrown, and a number is read as unsigned
    (
        &[
            Row::Parameter(0),
            Row::Parameter(1),
            Row::Unwrapped,
            Row::Export("g", 0),
            Row::Unsigned,
        ],
        &["a", "takeObject"],
        "(a, takeObject2) {\nif (takeObject2) {\nthrow takeObject(a);\n}\nconst ret = wasm.g();\nreturn ret >>> 0;\n}",
    ),
    // a helper is given two operands, and its answer is an operand of the next call
    (
        &[
            Row::Parameter(0),
            Row::Unchanged,
            Row::Parameter(1),
            Row::Unchanged,
            Row::Helper("addHeapObject", 2),
            Row::Helper("getObject", 1),
        ],
        &["v0", "getObject"],
        "(v0, getObject2) {\nconst v02 = addHeapObject(v0, getObject2);\nconst v1 = getObject(v02);\nreturn v1;\n}",
    ),
    // numbers of 64 bits are read as unsigned, and compared by an export
    (
        &[
            Row::Parameter(0),
            Row::Unsigned64,
            Row::Parameter(1),
            Row::Unsigned64,
            Row::Export("less", 2),
            Row::NotZero,
        ],
        &["a", "BigInt"],
        "(a, BigInt2) {\nconst v0 = BigInt.asUintN(64, a);\nconst v1 = BigInt.asUintN(64, BigInt2);\nconst ret = wasm.less(v0, v1);\nreturn ret !== 0;\n}",
    ),
    // a comparison is read as an unsigned number, which is compared again
    (
        &[Row::Parameter(0), Row::NotZero, Row::Unsigned, Row::NotZero],
        &["x"],
        "(x) {\nreturn (x !== 0) >>> 0 !== 0;\n}",
    ),
];

#[test]
fn functions_that_call(rt: HostRuntime) -> Result<(), AllocError> {
    assert_functions(&rt, rt.alloc(), &[CALLS])
}
