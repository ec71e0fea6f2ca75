//! Bodies and functions as text.
use crate::compare::assert_told;
use crate::form::{Form, Line, stmts_of};
use glue_inputs::{printed, texts};
use glue_tree::{Stmt, function_words_of, words_of};
use std::alloc::{AllocError, Global};

/// The parameters of a function, or none for its body alone; the statements, and the text.
struct Body {
    params: Option<&'static [&'static str]>,
    lines: &'static [Line],
    text: &'static str,
}

const A: Form = Form::Local("a");

const B: Form = Form::Local("b");

const E: Form = Form::Local("e");

const BODIES: &[Body] = &[
    // a statement of each kind
    Body {
        params: None,
        lines: &[
            Line::Let("ret", Form::Call(&Form::Wasm("add"), &[A, B])),
            Line::Do(Form::Call(&Form::Wasm("tick tock"), &[])),
            Line::Host("done"),
            Line::Return(Form::Local("ret")),
            Line::ReturnNothing,
        ],
        text: "const ret = wasm.add(a, b);\nwasm[\"tick tock\"]();\ndone\nreturn ret;\nreturn;",
    },
    // blocks stand on lines of their own
    Body {
        params: None,
        lines: &[
            Line::Unset("r"),
            Line::Finally(
                &[Line::If(E, &[Line::Throw(E)])],
                &[Line::Do(Form::Call(&Form::Wasm("free"), &[Form::Local("p")]))],
            ),
        ],
        text: "let r;\ntry {\nif (e) {\nthrow e;\n}\n} finally {\nwasm.free(p);\n}",
    },
    // a function without parameters and statements, and one that gives its second parameter back
    Body {
        params: Some(&[]),
        lines: &[],
        text: "() {\n}",
    },
    Body {
        params: Some(&["x", "y"]),
        lines: &[Line::Return(Form::Local("y"))],
        text: "(x, y) {\nreturn y;\n}",
    },
];

fn function_printed(alloc: Global, params: &[&str], body: &[Stmt]) -> Result<String, AllocError> {
    let params = texts(alloc, params)?;
    let words = function_words_of(alloc, params.as_slice(), body)?;
    printed(alloc, words)
}

fn told(alloc: Global, body: &Body) -> Result<String, AllocError> {
    let stmts = stmts_of(alloc, body.lines)?;
    match body.params {
        Some(params) => function_printed(alloc, params, stmts.as_slice()),
        None => printed(alloc, words_of(alloc, stmts.as_slice())?),
    }
}

#[test]
fn bodies_and_functions(rt: HostRuntime) -> Result<(), AllocError> {
    for body in BODIES {
        assert_told(&rt, told(rt.alloc(), body), body.text)?;
    }
    Ok(())
}
