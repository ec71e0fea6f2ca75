//! Steps as constants, and the functions of them.
use glue_binding::bind;
use glue_imports::{Expression, Part};
use glue_inputs::texts;
use glue_operands::Form;
use glue_scope::IdentScope;
use glue_steps::Step;
use glue_tree::JsFunction;
use glue_words::{key, punct};
use std::alloc::{AllocError, Global};
use values::{Seq, Text};

/// A step, by what its text is.
#[derive(Clone, Copy)]
pub enum Row {
    Parameter(u32),
    Unchanged,
    Unsigned,
    Unsigned64,
    NotZero,
    Lent,
    Unwrapped,
    /// The call of an export with so many operands, which has a result, or none.
    Export(&'static str, usize),
    Done(&'static str, usize),
    /// The call of an import, and of one whose statement `const val = a;` stands before its expression `val.x`.
    Import(&'static Import),
    Kept,
    /// The call of a helper with so many operands.
    Helper(&'static str, usize),
    /// What a helper writes to memory with the help of these exports, and what it writes unless it is absent.
    Write(&'static str, &'static [&'static str]),
    WriteUnlessAbsent(&'static str, &'static [&'static str]),
    /// What an export frees at the end, with its alignment in bytes.
    Free(&'static str, u32),
    Copied(&'static str),
    /// Room of so many bytes.
    Room(u32),
    /// What a view reads so many bytes behind the address of the room, or writes so many behind that of the first parameter, in 32 or 64 bits.
    Load32(&'static str, u32),
    Load64(&'static str, u32),
    Store32(&'static str, u32),
    Store64(&'static str, u32),
    /// What a helper makes of two operands and of a function of the file.
    Closure(&'static str, &'static str),
    /// The place of a text in a list, and the text at a place.
    IndexOf(&'static str),
    ItemAt(&'static str),
}

/// A call of what a name and these fields lead to.
pub struct Import {
    pub adapter: u32,
    pub global: &'static str,
    pub fields: &'static [&'static str],
    pub params: usize,
    pub has_result: bool,
}

fn import_call(alloc: Global, import: &Import) -> Result<Step, AllocError> {
    let fields = texts(alloc, import.fields)?;
    let value = Part::Host(Text::from_str(alloc, import.global)?, fields);
    let parts = vec![in alloc; value, Part::Arguments(false)]?;
    Ok(Step::CallImport {
        adapter: import.adapter,
        params: import.params,
        has_result: import.has_result,
        expression: Expression {
            locals: Seq::new(alloc),
            prelude: Seq::new(alloc),
            value: Seq::from_vec(parts),
        },
    })
}

fn kept_call(alloc: Global) -> Result<Step, AllocError> {
    let prelude = vec![in alloc;
        Part::Key(key::CONST),
        Part::Space,
        Part::Binding(0),
        Part::Space,
        Part::Punct(punct::ASSIGN),
        Part::Space,
        Part::Whole(0),
        Part::Punct(punct::SEMICOLON),
        Part::LineFeed,
    ]?;
    let property = Part::Property(Text::from_str(alloc, "x")?);
    let value = vec![in alloc; Part::Local(0), property]?;
    Ok(Step::CallImport {
        adapter: 7,
        params: 1,
        has_result: true,
        expression: Expression {
            locals: texts(alloc, &["val"])?,
            prelude: Seq::from_vec(prelude),
            value: Seq::from_vec(value),
        },
    })
}

fn call_export(
    alloc: Global,
    name: &str,
    params: usize,
    has_result: bool,
) -> Result<Step, AllocError> {
    Ok(Step::CallExport {
        name: Text::from_str(alloc, name)?,
        params,
        has_result,
    })
}

fn write(
    alloc: Global,
    helper: &str,
    exports: &[&str],
    optional: bool,
) -> Result<Step, AllocError> {
    Ok(Step::PassToMemory {
        helper: Text::from_str(alloc, helper)?,
        exports: texts(alloc, exports)?,
        optional,
    })
}

fn load(alloc: Global, view: &str, offset: u32, is_wide: bool) -> Result<Step, AllocError> {
    Ok(Step::LoadReturn {
        view: Text::from_str(alloc, view)?,
        offset,
        is_wide,
    })
}

fn store(alloc: Global, view: &str, offset: u32, is_wide: bool) -> Result<Step, AllocError> {
    Ok(Step::StoreReturn {
        view: Text::from_str(alloc, view)?,
        offset,
        is_wide,
    })
}

fn step(alloc: Global, row: Row) -> Result<Step, AllocError> {
    match row {
        Row::Parameter(place) => Ok(Step::Parameter(place)),
        Row::Unchanged => Ok(Step::Unchanged),
        Row::Unsigned => Ok(Step::ToUnsigned),
        Row::Unsigned64 => Ok(Step::ToUnsigned64),
        Row::NotZero => Ok(Step::IsNotZero),
        Row::Lent => Ok(Step::IndexFromBorrow),
        Row::Unwrapped => Ok(Step::UnwrapResult {
            helper: Text::from_str(alloc, "takeObject")?,
        }),
        Row::Export(name, params) => call_export(alloc, name, params, true),
        Row::Done(name, params) => call_export(alloc, name, params, false),
        Row::Import(import) => import_call(alloc, import),
        Row::Kept => kept_call(alloc),
        Row::Helper(name, params) => Ok(Step::CallHelper {
            helper: Text::from_str(alloc, name)?,
            params,
        }),
        Row::Write(helper, exports) => write(alloc, helper, exports, false),
        Row::WriteUnlessAbsent(helper, exports) => write(alloc, helper, exports, true),
        Row::Free(name, align) => Ok(Step::DeferFree {
            free: Text::from_str(alloc, name)?,
            align,
        }),
        Row::Copied(name) => Ok(Step::CopyOut {
            helper: Text::from_str(alloc, name)?,
        }),
        Row::Room(size) => Ok(Step::ReturnPointer { size }),
        Row::Load32(view, offset) => load(alloc, view, offset, false),
        Row::Load64(view, offset) => load(alloc, view, offset, true),
        Row::Store32(view, offset) => store(alloc, view, offset, false),
        Row::Store64(view, offset) => store(alloc, view, offset, true),
        Row::Closure(helper, function) => Ok(Step::MakeClosure {
            helper: Text::from_str(alloc, helper)?,
            function: Text::from_str(alloc, function)?,
        }),
        Row::IndexOf(name) => Ok(Step::IndexOf {
            list: Text::from_str(alloc, name)?,
        }),
        Row::ItemAt(name) => Ok(Step::ItemAt {
            list: Text::from_str(alloc, name)?,
        }),
    }
}

/// Appends the steps of rows.
pub fn push_steps(alloc: Global, rows: &[Row], steps: &mut Vec<Step>) -> Result<(), AllocError> {
    for row in rows {
        steps.push(step(alloc, *row)?)?;
    }
    Ok(())
}

/// The function of these steps and this form, whose printed parameters want these names, where others stand around it.
pub fn bound(
    alloc: Global,
    steps: &[Step],
    wanted: &[&str],
    form: Form,
    around: &[&str],
) -> Result<JsFunction, AllocError> {
    let wanted = texts(alloc, wanted)?;
    let around = texts(alloc, around)?;
    bind::<IdentScope>(alloc, steps, wanted.as_slice(), form, around.as_slice())
}
