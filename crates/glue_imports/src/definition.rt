//! The definition of an import by a value that a module has.
ghost use Rattle.std.specs.Prelude.{◌≡◌, IfOk};
ghost use Rattle.glue_imports.specs.Definitions as spec;

use crate::expressions::around;
use crate::part::Part;
use glue_shared::{JsImport, NameMap};
use glue_words::{key, punct};
use std::alloc::{AllocError, Global};
use values::{Seq, Text};

// `typeof `
fn typeof_front(alloc: Global) -> Result<Seq<Part>, AllocError>
    ensures parts { IfOk result (λ parts. parts ≡ spec.typeof_front) }
{
    Ok(Seq::from_vec(vec![in alloc; Part::Key(key::TYPEOF), Part::Space]?))
}

// ` == "function" ? `
fn if_function(alloc: Global) -> Result<Seq<Part>, AllocError>
    ensures parts { IfOk result (λ parts. parts ≡ spec.if_function) }
{
    let parts = vec![in alloc;
        Part::Space,
        Part::Punct(punct::LOOSE_EQUAL),
        Part::Space,
        Part::Literal(Text::from_str(alloc, "function")?),
        Part::Space,
        Part::Punct(punct::QUESTION),
        Part::Space,
    ]?;
    Ok(Seq::from_vec(parts))
}

// ` : notDefined("text")`
fn else_not_defined(alloc: Global, text: Text) -> Result<Seq<Part>, AllocError>
    ensures parts { IfOk result (λ parts. parts ≡ spec.else_not_defined text) }
{
    let parts = vec![in alloc;
        Part::Space,
        Part::Punct(punct::COLON),
        Part::Space,
        Part::Name(Text::from_str(alloc, "notDefined")?),
        Part::Punct(punct::OPEN_PAREN),
        Part::Literal(text),
        Part::Punct(punct::CLOSE_PAREN),
    ]?;
    Ok(Seq::from_vec(parts))
}

/// `typeof N == "function" ? N : notDefined("text")`, where N is the value that an import names: the value itself where it is a function, and
/// else a function that throws an error, which says that this text isn't defined. Want of memory is the only error.
pub fn function_or_throw(
    alloc: Global,
    names: &NameMap,
    js: &JsImport,
    text: Text,
) -> Result<Seq<Part>, AllocError>
    ensures parts { IfOk result (λ parts. parts ≡ spec.function_or_throw names.now js.now text) }
{
    let last = else_not_defined(alloc, text)?;
    let behind = around(alloc, names, if_function(alloc)?, js, last)?;
    around(alloc, names, typeof_front(alloc)?, js, behind)
}
