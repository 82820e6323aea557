// The places that expressions read and that statements write.

ghost use Rattle.std.specs.Prelude.{◌≡◌, IfOk};
ghost use Rattle.c_tree.specs.Starts.{start_of_place};

use crate::expression::Expr;
use sat_base::{At, Memory, Named};
use sqlite_items::Boxed;
use std::alloc::Global;

/// An object or a part of it, as it is read, written or stepped, or as its address is taken.
#[cycle(expression)]
#[derive(Drop)]
pub enum Place {
    /// `name`
    Plain {
        name: Named,
    },
    /// `name [ index ]`
    Index {
        name: Named,
        /// The `[`.
        mark_at: At,
        index: Boxed<Expr>,
    },
    /// `name [ first ] [ second ]`
    Index2 {
        name: Named,
        /// The first `[`.
        first_at: At,
        first: Boxed<Expr>,
        /// The second `[`.
        second_at: At,
        second: Boxed<Expr>,
    },
    /// `* name`
    Deref {
        /// The `*`.
        star_at: At,
        name: Named,
    },
}

impl Place {
    /// `name [ index ]`
    pub fn index(alloc: Global, name: Named, mark_at: At, index: Expr) -> Result<Place, Memory>
        ensures { IfOk result (λ place. place ≡ Place.Index name mark_at index) }
    {
        let index = Boxed::new(alloc, index)?;
        Ok(Place::Index {
            name,
            mark_at,
            index,
        })
    }

    /// `name [ first ] [ second ]`
    pub fn index2(
        alloc: Global,
        name: Named,
        first_at: At,
        first: Expr,
        second_at: At,
        second: Expr,
    ) -> Result<Place, Memory>
        ensures { IfOk result (λ place. place ≡ Place.Index2 name first_at first second_at second) }
    {
        let first = Boxed::new(alloc, first)?;
        let second = Boxed::new(alloc, second)?;
        Ok(Place::Index2 {
            name,
            first_at,
            first,
            second_at,
            second,
        })
    }

    /// Its first token.
    pub fn at(&self) -> At
        ensures { result ≡ start_of_place self.now }
    {
        match self {
            Place::Plain { name } | Place::Index { name, .. } | Place::Index2 { name, .. } =>
                name.at,
            Place::Deref { star_at, .. } => *star_at,
        }
    }
}
