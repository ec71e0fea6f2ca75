//! Functions that pass strings, vectors and results through memory, or texts through lists, or make closures.
use crate::functions::{Function, assert_functions};
use crate::steps::Row;
use std::alloc::AllocError;

/// The exports that a string is written by.
const BOTH: &[&str] = &["malloc", "realloc"];

/// A string is an address and a length.
const STRINGS_IN: &[Function] = &[
    (
        &[
            Row::Parameter(0),
            Row::Write("passStringToWasm0", BOTH),
            Row::Export("len", 2),
            Row::Unsigned,
        ],
        &["s"],
        "(s) {\nconst ptr0 = passStringToWasm0(s, wasm.malloc, wasm.realloc);\nconst len0 = WASM_VECTOR_LEN;\nconst ret = wasm.len(ptr0, len0);\nreturn ret >>> 0;\n}",
    ),
    // Without a function that moves what was allocated, and with a name that is no identifier.
    (
        &[
            Row::Parameter(0),
            Row::Write("passStringToWasm3", &["new-block"]),
            Row::Done("take it", 2),
        ],
        &["s"],
        "(s) {\nconst ptr0 = passStringToWasm3(s, wasm[\"new-block\"]);\nconst len0 = WASM_VECTOR_LEN;\nwasm[\"take it\"](ptr0, len0);\n}",
    ),
    // A string that may be absent is tested first.
    (
        &[
            Row::Parameter(0),
            Row::WriteUnlessAbsent("passStringToWasm0", BOTH),
            Row::Export("len", 2),
        ],
        &["s"],
        "(s) {\nconst ptr0 = isLikeNone(s) ? 0 : passStringToWasm0(s, wasm.malloc, wasm.realloc);\nconst len0 = WASM_VECTOR_LEN;\nconst ret = wasm.len(ptr0, len0);\nreturn ret;\n}",
    ),
    (
        &[
            Row::Parameter(1),
            Row::WriteUnlessAbsent("passStringToWasm0", &["malloc"]),
            Row::Parameter(0),
            Row::Done("put", 3),
        ],
        &["place", "s"],
        "(place, s) {\nconst ptr0 = isLikeNone(s) ? 0 : passStringToWasm0(s, wasm.malloc);\nconst len0 = WASM_VECTOR_LEN;\nwasm.put(ptr0, len0, place);\n}",
    ),
];

/// What is freed at the end is freed after a throw too.
const FREED: &[Function] = &[
    // What comes out is read before it is freed.
    (
        &[
            Row::Export("name", 0),
            Row::Parameter(0),
            Row::Free("free", 1),
            Row::Helper("getStringFromWasm0", 2),
        ],
        &["count"],
        "(count) {\nconst ret = wasm.name();\ntry {\nconst v0 = getStringFromWasm0(ret, count);\nreturn v0;\n} finally {\nwasm.free(ret, count, 1);\n}\n}",
    ),
    // What goes in is freed after the call, by its name and with its alignment.
    (
        &[
            Row::Parameter(0),
            Row::Write("passArray64ToWasm0", &["malloc"]),
            Row::Free("give-back", 8),
            Row::Done("take", 2),
        ],
        &["v"],
        "(v) {\nconst ptr0 = passArray64ToWasm0(v, wasm.malloc);\nconst len0 = WASM_VECTOR_LEN;\ntry {\nwasm.take(ptr0, len0);\n} finally {\nwasm[\"give-back\"](ptr0, len0, 8);\n}\n}",
    ),
    // Two of them, and an object that is lent in between, each in a `try` of its own.
    (
        &[
            Row::Parameter(0),
            Row::Write("passStringToWasm0", BOTH),
            Row::Free("free", 1),
            Row::Parameter(1),
            Row::Lent,
            Row::Parameter(2),
            Row::Write("passStringToWasm0", BOTH),
            Row::Free("free", 1),
            Row::Export("same", 5),
            Row::NotZero,
        ],
        &["a", "b", "c"],
        "(a, b, c) {\nconst ptr0 = passStringToWasm0(a, wasm.malloc, wasm.realloc);\nconst len0 = WASM_VECTOR_LEN;\ntry {\nconst v1 = addBorrowedObject(b);\ntry {\nconst ptr2 = passStringToWasm0(c, wasm.malloc, wasm.realloc);\nconst len2 = WASM_VECTOR_LEN;\ntry {\nconst ret = wasm.same(ptr0, len0, v1, ptr2, len2);\nreturn ret !== 0;\n} finally {\nwasm.free(ptr2, len2, 1);\n}\n} finally {\nheap[stack_pointer++] = undefined;\n}\n} finally {\nwasm.free(ptr0, len0, 1);\n}\n}",
    ),
];

/// Vectors are copied in and out.
const VECTORS: &[Function] = &[
    // A vector goes in, and a copy of what stands in memory comes out.
    (
        &[
            Row::Parameter(0),
            Row::Write("passArray16ToWasm0", &["malloc"]),
            Row::Export("twice", 2),
            Row::Parameter(1),
            Row::Copied("getArrayU16FromWasm0"),
        ],
        &["v", "count"],
        "(v, count) {\nconst ptr0 = passArray16ToWasm0(v, wasm.malloc);\nconst len0 = WASM_VECTOR_LEN;\nconst ret = wasm.twice(ptr0, len0);\nconst v1 = getArrayU16FromWasm0(ret, count).slice();\nreturn v1;\n}",
    ),
    // One of any values is made by the helper, and isn't copied again.
    (
        &[
            Row::Parameter(0),
            Row::Write("passArrayJsValueToWasm0", &["malloc"]),
            Row::Export("turned", 2),
            Row::Parameter(1),
            Row::Helper("getArrayJsValueFromWasm0", 2),
        ],
        &["v", "count"],
        "(v, count) {\nconst ptr0 = passArrayJsValueToWasm0(v, wasm.malloc);\nconst len0 = WASM_VECTOR_LEN;\nconst ret = wasm.turned(ptr0, len0);\nconst v1 = getArrayJsValueFromWasm0(ret, count);\nreturn v1;\n}",
    ),
];

/// Addresses and lengths have names of their own.
const NAMES: &[Function] = &[
    // The number of a temporary is that of the steps before it that have one, whatever they are called.
    (
        &[
            Row::Parameter(0),
            Row::Unsigned64,
            Row::Parameter(1),
            Row::Write("passStringToWasm0", &["malloc"]),
            Row::Export("f", 3),
            Row::Parameter(0),
            Row::Copied("getArrayI8FromWasm0"),
            Row::Helper("addHeapObject", 1),
        ],
        &["a", "b"],
        "(a, b) {\nconst v0 = BigInt.asUintN(64, a);\nconst ptr1 = passStringToWasm0(b, wasm.malloc);\nconst len1 = WASM_VECTOR_LEN;\nconst ret = wasm.f(v0, ptr1, len1);\nconst v2 = getArrayI8FromWasm0(ret, a).slice();\nconst v3 = addHeapObject(v2);\nreturn v3;\n}",
    ),
    // Parameters are named first, and the names of helpers aren't theirs.
    (
        &[
            Row::Parameter(0),
            Row::WriteUnlessAbsent("passStringToWasm0", BOTH),
            Row::Parameter(1),
            Row::Parameter(2),
            Row::Free("free", 1),
            Row::Done("f", 4),
        ],
        &["len0", "WASM_VECTOR_LEN", "isLikeNone", "malloc"],
        "(len0, WASM_VECTOR_LEN2, isLikeNone2, malloc) {\nconst ptr0 = isLikeNone(len0) ? 0 : passStringToWasm0(len0, wasm.malloc, wasm.realloc);\nconst len02 = WASM_VECTOR_LEN;\ntry {\nwasm.f(ptr0, len02, WASM_VECTOR_LEN2, isLikeNone2);\n} finally {\nwasm.free(WASM_VECTOR_LEN2, isLikeNone2, 1);\n}\n}",
    ),
];

/// The view of the first memory.
const VIEW: &str = "getDataViewMemory0";

/// Results stand in room that is given back.
const ROOMS: &[Function] = &[
    // A string comes out by its address and its length.
    (
        &[
            Row::Room(16),
            Row::Done("name", 1),
            Row::Load32(VIEW, 0),
            Row::Load32(VIEW, 4),
            Row::Free("free", 1),
            Row::Helper("getStringFromWasm0", 2),
        ],
        &[],
        "() {\nconst retptr = wasm.__wbindgen_add_to_stack_pointer(-16);\ntry {\nwasm.name(retptr);\nconst v0 = getDataViewMemory0().getInt32(retptr + 0, true);\nconst v1 = getDataViewMemory0().getInt32(retptr + 4, true);\ntry {\nconst v2 = getStringFromWasm0(v0, v1);\nreturn v2;\n} finally {\nwasm.free(v0, v1, 1);\n}\n} finally {\nwasm.__wbindgen_add_to_stack_pointer(16);\n}\n}",
    ),
    // An integer of 64 bits does, of another memory; the room's address stands before what was there, and its name is a parameter's already.
    (
        &[
            Row::Room(8),
            Row::Parameter(0),
            Row::Done("wide", 2),
            Row::Load64("getDataViewMemory1", 0),
            Row::Unsigned64,
        ],
        &["retptr"],
        "(retptr) {\nconst retptr2 = wasm.__wbindgen_add_to_stack_pointer(-8);\ntry {\nwasm.wide(retptr2, retptr);\nconst v0 = getDataViewMemory1().getBigInt64(retptr2 + 0, true);\nconst v1 = BigInt.asUintN(64, v0);\nreturn v1;\n} finally {\nwasm.__wbindgen_add_to_stack_pointer(8);\n}\n}",
    ),
    // Room of no bytes.
    (
        &[Row::Room(0), Row::Done("f", 1)],
        &[],
        "() {\nconst retptr = wasm.__wbindgen_add_to_stack_pointer(0);\ntry {\nwasm.f(retptr);\n} finally {\nwasm.__wbindgen_add_to_stack_pointer(0);\n}\n}",
    ),
    // Results are written behind the first parameter.
    (
        &[
            Row::Parameter(1),
            Row::Unsigned,
            Row::Store32(VIEW, 0),
            Row::Parameter(2),
            Row::Store64(VIEW, 8),
        ],
        &["arg0", "low", "wide"],
        "(arg0, low, wide) {\ngetDataViewMemory0().setInt32(arg0 + 0, low >>> 0, true);\ngetDataViewMemory0().setBigInt64(arg0 + 8, wide, true);\n}",
    ),
];

/// Texts of string enums pass as their places.
const LISTS: &[Function] = &[
    (
        &[
            Row::Parameter(0),
            Row::IndexOf("__wbindgen_enum_Color"),
            Row::Export("next", 1),
            Row::ItemAt("__wbindgen_enum_Color"),
        ],
        &["color"],
        "(color) {\nconst v0 = __wbindgen_enum_Color.indexOf(color);\nconst ret = wasm.next(v0);\nconst v1 = __wbindgen_enum_Color[ret];\nreturn v1;\n}",
    ),
    // A place may hold an operator.
    (
        &[
            Row::Parameter(0),
            Row::Unsigned,
            Row::ItemAt("__wbindgen_enum_Color"),
        ],
        &["place"],
        "(place) {\nconst v0 = __wbindgen_enum_Color[place >>> 0];\nreturn v0;\n}",
    ),
];

/// A closure is made with a function of the file.
const CLOSURES: &[Function] = &[
    // The function stands behind the operands, the older of them first.
    (
        &[
            Row::Parameter(0),
            Row::Parameter(1),
            Row::Closure("makeMutClosure", "on_click"),
        ],
        &["arg0", "arg1"],
        "(arg0, arg1) {\nconst v0 = makeMutClosure(arg0, arg1, on_click);\nreturn v0;\n}",
    ),
    // Its name is no parameter's, and what is made has a number.
    (
        &[
            Row::Parameter(0),
            Row::Unsigned,
            Row::Parameter(1),
            Row::Closure("makeClosure", "on_click"),
            Row::Helper("addHeapObject", 1),
        ],
        &["on_click", "makeClosure"],
        "(on_click2, makeClosure2) {\nconst v0 = makeClosure(on_click2 >>> 0, makeClosure2, on_click);\nconst v1 = addHeapObject(v0);\nreturn v1;\n}",
    ),
];

#[test]
fn functions_that_pass_through_memory_and_lists(rt: HostRuntime) -> Result<(), AllocError> {
    assert_functions(
        &rt,
        rt.alloc(),
        &[STRINGS_IN, FREED, VECTORS, NAMES, ROOMS, LISTS, CLOSURES],
    )
}
