// What is seen in a tree: what stands at each token at which a fault may stand.

use c_typed::Callee;
use sat_base::{At, Width};

/// The kinds of object.
#[derive(Clone, Copy)]
pub enum Kind {
    Scalar,
    /// An array of one dimension.
    Array,
    /// An array of two dimensions.
    Table,
    /// A pointer, or a parameter that is one.
    View,
}

/// What a name stands for.
#[derive(Clone, Copy)]
pub enum Meaning {
    /// An object, with the width of its elements and whether they are const.
    Object {
        kind: Kind,
        width: Width,
        is_const: bool,
    },
    /// A function of the source, by the number of the item that declares it.
    Function {
        item: usize,
    },
    /// A call that is in scope everywhere.
    Predefined(Callee),
}

/// What a view has to be that is given to a parameter or to a pointer.
#[derive(Clone, Copy)]
pub struct View {
    pub width: Width,
    pub is_const: bool,
}

/// What is needed where an expression stands.
#[derive(Clone, Copy)]
pub enum Need {
    Number,
    /// Something to assign to, or to step.
    Target,
    /// A view, in the argument that begins at this token.
    View { view: View, first: At },
    /// Nothing that is known.
    Nothing,
}

/// What an argument is given to.
#[derive(Clone, Copy)]
pub enum Wanted {
    Number,
    View(View),
    /// No parameter.
    Nothing,
}

/// The marks of a place, beside its name.
#[derive(Clone, Copy)]
pub enum Marks {
    /// `name`
    None,
    /// `name [ .. ]`, with its `[`.
    Once(At),
    /// `name [ .. ] [ .. ]`, with the first `[`.
    Twice(At),
    /// `* name`, with its `*`.
    Star(At),
}

/// A place that is read, written or given.
#[derive(Clone, Copy)]
pub struct SeenPlace {
    /// Its name.
    pub at: At,
    pub marks: Marks,
    /// Whether an `&` stands before it.
    pub ampersand: bool,
    /// What its name stands for; none where the name is not in scope.
    pub meaning: Option<Meaning>,
    pub need: Need,
}

/// What is called.
#[derive(Clone, Copy)]
pub enum Called {
    /// A name that is not in scope.
    Unknown,
    /// A name of something else.
    NoFunction,
    Function {
        /// Whether it gives a number.
        gives: bool,
        /// The number of its parameters.
        parameters: usize,
        /// Whether it has a definition, or needs none.
        is_defined: bool,
        /// Whether it is `main`.
        is_main: bool,
    },
}

/// A call.
#[derive(Clone, Copy)]
pub struct SeenCall {
    /// Its name.
    pub at: At,
    pub called: Called,
    /// The number of its arguments.
    pub arguments: usize,
    pub need: Need,
}

/// An object that is declared.
#[derive(Clone, Copy)]
pub struct SeenObject {
    /// Its name.
    pub at: At,
    pub kind: Kind,
    pub width: Width,
    /// The number of its elements, 0 for a view and where a length is bad.
    pub elements: u128,
    /// Whether it is declared in a function.
    pub is_local: bool,
    pub has_bad_initialiser: bool,
    pub has_bad_length: bool,
    pub misuses_pointer: bool,
}

/// A parameter that is declared.
#[derive(Clone, Copy)]
pub struct SeenParameter {
    /// Its name, or its first token where it has none.
    pub at: At,
    pub has_name: bool,
    /// Its type.
    pub type_at: At,
    pub is_view: bool,
    pub width: Width,
    /// Whether it is one of a definition.
    pub is_defined: bool,
    /// Its name, or its `[` where it has none, where its length is bad.
    pub bad_length: Option<At>,
}

/// A function that is declared.
#[derive(Clone, Copy)]
pub struct SeenFunction {
    /// Its name.
    pub at: At,
    /// Whether it is the first of its name, and the name is not predefined.
    pub is_new: bool,
    /// Whether it differs from an earlier declaration.
    pub differs: bool,
    /// Whether it is a definition after another one.
    pub is_second: bool,
    /// Whether it gives a number, is not `main`, and has a body that does not surely return.
    pub lacks_return: bool,
}

/// What is seen in a tree.
#[derive(Clone, Copy)]
pub enum Seen {
    Place(SeenPlace),
    Call(SeenCall),
    /// An expression that is neither a place nor a call, where a view is needed, at the first token of the
    /// argument.
    NoView {
        at: At,
    },
    /// A name that is declared, and whether it may not be.
    Name {
        at: At,
        is_taken: bool,
    },
    Object(SeenObject),
    Parameter(SeenParameter),
    Function(SeenFunction),
    /// A statement, at its first token.
    Statement {
        at: At,
    },
    /// A relational constant.
    Constant {
        at: At,
        value: i32,
    },
    /// `break` or `continue`.
    Leave {
        at: At,
        in_loop: bool,
    },
    Return {
        at: At,
        has_value: bool,
        /// Whether the function gives a number.
        gives: bool,
    },
    /// The end of the source.
    End {
        at: At,
        has_main: bool,
    },
}
