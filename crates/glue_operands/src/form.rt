//! The form of a function.
ghost use Rattle.std.specs.Prelude.{◌≡◌};
ghost use Rattle.glue_operands.specs.Form as spec;

/// What a function's parameters are beside locals of their own.
#[derive(Clone, Copy)]
pub struct Form {
    /// What the function is called on, `this`, stands for the first parameter, which isn't printed.
    pub takes_this: bool,
    /// The last printed parameter, if there is one, gathers all further arguments, `...p`.
    pub has_rest: bool,
}

/// Each parameter has a name, and none gathers others.
pub fn usual_form() -> Form
    ensures form { result ≡ spec.usual_form }
{
    Form {
        takes_this: false,
        has_rest: false,
    }
}
