// What is wrong with a source that is well formed: its faults, and the limits that it passes.

ghost use Rattle.std.specs.Prelude.{◌≡◌};
ghost use Rattle.sat_base.specs.Faults.{text_of, rank_of, is_before, lesser};

use crate::position::Pos;

/// A fault of a source, or a limit that it passes.
#[derive(Clone, Copy, Debug, PartialEq, Eq, Hash)]
pub struct Fault {
    pub kind: FaultKind,
    /// The number of the token at which it stands; the number of all tokens where it stands at the
    /// end of the text.
    pub tok: u32,
    /// The place of that token.
    pub pos: Pos,
}

/// The kinds of fault and the limits, in the order in which they are told on one token.
#[derive(Clone, Copy, Debug, PartialEq, Eq, Hash)]
pub enum FaultKind {
    /// A name that is not in scope there (C90, 6.1.2.1).
    UnknownName,
    /// A name that is declared twice in one scope, unless each time as a function, or a predefined
    /// name that is declared; a parameter of a definition without a name (C90, 6.5, 6.7.1).
    DuplicateName,
    /// A call with another number of arguments than the function has parameters (C90, 6.3.2.2).
    ArgumentCount,
    /// An array, a view or a function where a number is needed.
    NumberNeeded,
    /// An index or a `*` on a scalar or a function (C90, 6.3.2.1).
    NotAnArray,
    /// A call of a name that is no function (C90, 6.3.2.2).
    NotAFunction,
    /// A write to a const object, or a way to write to it that is given away (C90, 6.5.3).
    ConstWritten,
    /// An initialiser that does not fit its object, or that is no constant where one is needed
    /// (C90, 6.5.7).
    BadInitialiser,
    /// A call of a void function where a number is needed.
    VoidValue,
    /// A function that gives a number and whose body does not surely return.
    MissingReturn,
    /// `return` with a value in a void function, or without one in another (C90, 6.6.6.4).
    WrongReturn,
    /// `break` or `continue` outside a loop (C90, 6.6.6.2, 6.6.6.3).
    OutsideALoop,
    /// No definition of `main` without parameters that gives 32 bits or nothing.
    NoMain,
    /// A view of elements of another width than the parameter's.
    ElementWidth,
    /// An array or a view with too many indices, or with too few where a view is needed.
    WrongShape,
    /// The length of an array that is no constant or is less than 1, or is missing (C90, 6.5.4.2).
    BadLength,
    /// A number, a void call or a function where a view is needed.
    ViewNeeded,
    /// Two declarations of one function that differ (C90, 6.5).
    DeclarationsDiffer,
    /// A call of a function that is not defined.
    NoDefinition,
    /// A second definition of one function (C90, 6.7).
    DefinedTwice,
    /// A call of `main`.
    MainCalled,
    /// A pointer at file scope, or static, or without an initialiser, or assigned, or stepped.
    PointerUse,
    /// More than 1,024 distinct functions.
    TooManyFunctions,
    /// More than 256 scalars in one function, its scalar parameters included.
    TooManyScalars,
    /// More than 16 parameters of one function.
    TooManyParameters,
    /// More than 1,048,576 bytes of all objects together.
    TooMuchData,
    /// More than 4,096 distinct relational constants.
    TooManyConstants,
    /// More than 65,536 statements.
    TooManyStatements,
    /// More than 64 views in one function, its parameters included.
    TooManyViews,
    /// Want of memory, which has token 0.
    Memory,
}

/// The words in which a fault is told.
pub fn fault_text(kind: FaultKind) -> &'static str
    ensures { result.now ≡ text_of kind }
{
    match kind {
        FaultKind::UnknownName => "unknown name",
        FaultKind::DuplicateName => "duplicate name",
        FaultKind::ArgumentCount => "wrong number of arguments",
        FaultKind::NumberNeeded => "number needed",
        FaultKind::NotAnArray => "not an array",
        FaultKind::NotAFunction => "not a function",
        FaultKind::ConstWritten => "const written",
        FaultKind::BadInitialiser => "bad initialiser",
        FaultKind::VoidValue => "void value used",
        FaultKind::MissingReturn => "missing return",
        FaultKind::WrongReturn => "wrong return",
        FaultKind::OutsideALoop => "outside a loop",
        FaultKind::NoMain => "no main",
        FaultKind::ElementWidth => "element width",
        FaultKind::WrongShape => "wrong shape",
        FaultKind::BadLength => "bad length",
        FaultKind::ViewNeeded => "view needed",
        FaultKind::DeclarationsDiffer => "declarations differ",
        FaultKind::NoDefinition => "no definition",
        FaultKind::DefinedTwice => "defined twice",
        FaultKind::MainCalled => "main called",
        FaultKind::PointerUse => "pointer use",
        FaultKind::TooManyFunctions => "limit functions",
        FaultKind::TooManyScalars => "limit scalars",
        FaultKind::TooManyParameters => "limit parameters",
        FaultKind::TooMuchData => "limit data",
        FaultKind::TooManyConstants => "limit constants",
        FaultKind::TooManyStatements => "limit statements",
        FaultKind::TooManyViews => "limit views",
        FaultKind::Memory => "out of memory",
    }
}

/// The place of a kind in the order in which faults are told on one token, from 0.
fn rank(kind: FaultKind) -> u32
    ensures { result ≡ rank_of kind }
{
    kind as u32
}

impl Fault {
    /// Whether it is told before the other: by token, and on one token by kind.
    pub fn is_before(&self, other: &Fault) -> bool
        ensures { result ≡ is_before self.now other.now }
    {
        self.tok < other.tok || self.tok == other.tok && rank(self.kind) < rank(other.kind)
    }
}

/// Of two faults that may be there the one that is told: the left one, unless the right one comes
/// before it.
pub fn lesser(left: Option<Fault>, right: Option<Fault>) -> Option<Fault>
    ensures { result ≡ lesser left right }
{
    match (left, right) {
        (Some(one), Some(other)) => Some(if other.is_before(&one) { other } else { one }),
        (Some(one), None) => Some(one),
        (None, _) => right,
    }
}

#[cfg(test)]
mod tests {
    use super::*;

    fn fault(kind: FaultKind, tok: u32) -> Fault {
        let pos = Pos { line: 1, col: 1 };
        Fault { kind, tok, pos }
    }

    #[test]
    fn the_lesser_is_by_token_and_then_by_kind(rt: HostRuntime) {
        let no_main = Some(fault(FaultKind::NoMain, 7));
        let wrong_shape = Some(fault(FaultKind::WrongShape, 7));
        let limit = Some(fault(FaultKind::TooManyViews, 6));
        for (left, right, least) in [
            (no_main, wrong_shape, no_main),
            (wrong_shape, no_main, no_main),
            (wrong_shape, limit, limit),
            (limit, no_main, limit),
            (None, limit, limit),
            (limit, None, limit),
            (None, None, None),
        ] {
            assert_eq!(rt; lesser(left, right), least);
        }
    }
}
