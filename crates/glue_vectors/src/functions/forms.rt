//! Functions of other forms than the usual one: what they are called on is their first operand, or the last parameter gathers others.
use crate::compare::assert_told;
use crate::functions::told;
use crate::steps::{Row, push_steps};
use glue_operands::Form;
use std::alloc::{AllocError, Global};

const WITH_THIS: Form = Form {
    takes_this: true,
    has_rest: false,
};

const WITH_REST: Form = Form {
    takes_this: false,
    has_rest: true,
};

const WITH_BOTH: Form = Form {
    takes_this: true,
    has_rest: true,
};

// One parameter is passed on to an export, and its result back; two are; three are.
const PASSING_ONE: &[Row] = &[
    Row::Parameter(0),
    Row::Unchanged,
    Row::Export("f", 1),
    Row::Unchanged,
];

const PASSING_TWO: &[Row] = &[
    Row::Parameter(0),
    Row::Unchanged,
    Row::Parameter(1),
    Row::Unchanged,
    Row::Export("f", 2),
    Row::Unchanged,
];

const PASSING_THREE: &[Row] = &[
    Row::Parameter(0),
    Row::Unchanged,
    Row::Parameter(1),
    Row::Unchanged,
    Row::Parameter(2),
    Row::Unchanged,
    Row::Export("f", 3),
    Row::Unchanged,
];

// A form, the steps, the names that the printed parameters want, those around the function, and its text.
struct FormCase {
    form: Form,
    steps: &'static [Row],
    wanted: &'static [&'static str],
    around: &'static [&'static str],
    text: &'static str,
}

const FORMS: &[FormCase] = &[
    FormCase {
        form: WITH_THIS,
        steps: PASSING_TWO,
        wanted: &["arg1"],
        around: &[],
        text: "(arg1) {\nconst ret = wasm.f(this, arg1);\nreturn ret;\n}",
    },
    FormCase {
        form: WITH_REST,
        steps: PASSING_TWO,
        wanted: &["a", "others"],
        around: &[],
        text: "(a, ...others) {\nconst ret = wasm.f(a, others);\nreturn ret;\n}",
    },
    FormCase {
        form: WITH_REST,
        steps: PASSING_ONE,
        wanted: &["all"],
        around: &[],
        text: "(...all) {\nconst ret = wasm.f(all);\nreturn ret;\n}",
    },
    FormCase {
        form: WITH_BOTH,
        steps: PASSING_THREE,
        wanted: &["a", "b"],
        around: &[],
        text: "(a, ...b) {\nconst ret = wasm.f(this, a, b);\nreturn ret;\n}",
    },
    // `this` is the only parameter, and none is printed
    FormCase {
        form: WITH_BOTH,
        steps: PASSING_ONE,
        wanted: &[],
        around: &[],
        text: "() {\nconst ret = wasm.f(this);\nreturn ret;\n}",
    },
    FormCase {
        form: WITH_THIS,
        steps: PASSING_THREE,
        wanted: &["ret", "handleError"],
        around: &["handleError", "ret"],
        text: "(ret2, handleError2) {\nconst ret3 = wasm.f(this, ret2, handleError2);\nreturn ret3;\n}",
    },
    // what a function is called on is lent, and read as an unsigned number
    FormCase {
        form: WITH_THIS,
        steps: &[
            Row::Parameter(0),
            Row::Lent,
            Row::Parameter(0),
            Row::Unsigned,
            Row::Export("f", 2),
        ],
        wanted: &[],
        around: &[],
        text: "() {\nconst v0 = addBorrowedObject(this);\ntry {\nconst ret = wasm.f(v0, this >>> 0);\nreturn ret;\n} finally {\nheap[stack_pointer++] = undefined;\n}\n}",
    },
];

fn formed(alloc: Global, case: &FormCase) -> Result<String, AllocError> {
    let mut steps = Vec::new(alloc);
    push_steps(alloc, case.steps, &mut steps)?;
    told(alloc, &steps, case.wanted, case.form, case.around)
}

#[test]
fn functions_of_other_forms(rt: HostRuntime) -> Result<(), AllocError> {
    for case in FORMS {
        assert_told(&rt, formed(rt.alloc(), case), case.text)?;
    }
    Ok(())
}
