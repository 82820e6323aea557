// Assignments, steps and calls as statements.

ghost use Rattle.std.specs.Prelude.{◌≡◌, IfOk};
ghost use Rattle.c_tree.specs.Starts.{start_of_place, start_of_simple};

use crate::call::Call;
use crate::expression::Expr;
use crate::place::Place;
use sat_base::{At, Memory};
use sqlite_items::Boxed;
use std::alloc::Global;

/// What stands before a `;` and between the `;` of a `for`. It is no node of its own.
#[derive(Drop)]
pub enum Simple {
    /// `place mark value` (C90, 6.3.16).
    Assign {
        /// The first token of the place.
        at: At,
        place: Boxed<Place>,
        mark: AssignMark,
        mark_at: At,
        value: Boxed<Expr>,
    },
    /// `++` or `--` before or after a place (C90, 6.3.2.4 and 6.3.3.1). Before `*` it stands only in front.
    Step {
        /// The first token of the place or the mark, whichever is first.
        at: At,
        place: Boxed<Place>,
        /// Whether it is `++`.
        up: bool,
        mark_at: At,
    },
    /// `Overflow = value`
    SetOverflow {
        /// The word `Overflow`.
        at: At,
        value: Boxed<Expr>,
    },
    /// A call whose value, if it has one, is not used.
    Call(Call),
}

impl Simple {
    /// `place mark value`
    pub fn assign(
        alloc: Global,
        place: Place,
        mark: AssignMark,
        mark_at: At,
        value: Expr,
    ) -> Result<Simple, Memory>
        ensures { IfOk result (λ simple. simple ≡ Simple.Assign (start_of_place place) place mark mark_at value) }
    {
        let at = place.at();
        let place = Boxed::new(alloc, place)?;
        let value = Boxed::new(alloc, value)?;
        Ok(Simple::Assign {
            at,
            place,
            mark,
            mark_at,
            value,
        })
    }

    /// `++ place` or `-- place`
    pub fn step_before(alloc: Global, up: bool, mark_at: At, place: Place) -> Result<Simple, Memory>
        ensures { IfOk result (λ simple. simple ≡ Simple.Step mark_at place up mark_at) }
    {
        let place = Boxed::new(alloc, place)?;
        Ok(Simple::Step {
            at: mark_at,
            place,
            up,
            mark_at,
        })
    }

    /// `place ++` or `place --`
    pub fn step_after(alloc: Global, place: Place, up: bool, mark_at: At) -> Result<Simple, Memory>
        ensures { IfOk result (λ simple. simple ≡ Simple.Step (start_of_place place) place up mark_at) }
    {
        let at = place.at();
        let place = Boxed::new(alloc, place)?;
        Ok(Simple::Step {
            at,
            place,
            up,
            mark_at,
        })
    }

    /// `Overflow = value`
    pub fn set_overflow(alloc: Global, at: At, value: Expr) -> Result<Simple, Memory>
        ensures { IfOk result (λ simple. simple ≡ Simple.SetOverflow at value) }
    {
        let value = Boxed::new(alloc, value)?;
        Ok(Simple::SetOverflow { at, value })
    }

    /// Its first token.
    pub fn at(&self) -> At
        ensures { result ≡ start_of_simple self.now }
    {
        match self {
            Simple::Call(call) => call.name.at,
            Simple::Assign { at, .. } | Simple::Step { at, .. } | Simple::SetOverflow { at, .. } =>
                *at,
        }
    }
}

/// The marks of assignment (C90, 6.3.16).
#[derive(Clone, Copy, Debug, PartialEq, Eq)]
pub enum AssignMark {
    /// `=`
    Plain,
    /// `+=`
    Plus,
    /// `-=`
    Minus,
    /// `*=`
    Times,
    /// `&=`
    And,
    /// `|=`
    Or,
    /// `^=`
    Xor,
}
