//! How many steps may nest.
use crate::functions::told;
use crate::steps::{Row, push_steps};
use glue_operands::usual_form;
use std::alloc::{AllocError, Global};

// Steps, one that stands behind them so many times, and those behind it, with the names that the parameters want.
struct NestCase {
    first: &'static [Row],
    repeated: Row,
    times: u64,
    last: &'static [Row],
    wanted: &'static [&'static str],
    // How many pieces the text has between words, one more than there are words; or none where there is no function.
    pieces: Option<(&'static str, usize)>,
}

const NESTED: &[NestCase] = &[
    // readings with 64 bits stand one behind the other
    NestCase {
        first: &[Row::Export("f", 0)],
        repeated: Row::Unsigned64,
        times: 5_001,
        last: &[],
        wanted: &[],
        pieces: Some(("BigInt.asUintN(64, ", 5_002)),
    },
    // those with 32 bits nest
    NestCase {
        first: &[Row::Export("f", 0)],
        repeated: Row::Unsigned,
        times: 5_000,
        last: &[],
        wanted: &[],
        pieces: Some((" >>> 0", 5_001)),
    },
    NestCase {
        first: &[Row::Export("f", 0)],
        repeated: Row::Unsigned,
        times: 5_001,
        last: &[],
        wanted: &[],
        pieces: None,
    },
    // so does what is lent, with the comparison of what the last one gave
    NestCase {
        first: &[Row::Parameter(0)],
        repeated: Row::Lent,
        times: 4_999,
        last: &[Row::NotZero],
        wanted: &["x"],
        pieces: Some(("} finally {", 5_000)),
    },
    NestCase {
        first: &[Row::Parameter(0)],
        repeated: Row::Lent,
        times: 5_000,
        last: &[Row::NotZero],
        wanted: &["x"],
        pieces: None,
    },
];

fn nested(alloc: Global, case: &NestCase) -> Result<String, AllocError> {
    let mut steps = Vec::new(alloc);
    push_steps(alloc, case.first, &mut steps)?;
    for _ in 0..case.times {
        push_steps(alloc, &[case.repeated], &mut steps)?;
    }
    push_steps(alloc, case.last, &mut steps)?;
    told(alloc, &steps, case.wanted, usual_form(), &[])
}

#[test]
fn what_nests_has_a_limit(rt: HostRuntime) -> Result<(), AllocError> {
    for case in NESTED {
        let text = nested(rt.alloc(), case);
        match case.pieces {
            Some((word, pieces)) => assert!(rt; text?.split(word).count() == pieces, "{word}"),
            None => assert!(rt; text.is_err(), "{} times", case.times),
        }
    }
    Ok(())
}
