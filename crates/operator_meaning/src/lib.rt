// The 29 basic operators (ITU-T G.191, Software Tool Library manual, basic operators): their names and
// widths, their values, and when they set Overflow.
#![tactic(auto)]

mod clipped;
mod laws;
mod meaning;
mod norm;
pub mod object;
mod operands;
pub mod operator;
mod order;
mod outcome;
mod product;
mod quotient;
mod shift;
pub mod site;
mod sum;
mod table;

pub use laws::{
    counts_turn, names_are_distinct, norms_reach, order_is_one, shifts_round, signs_differ,
    values_fit,
};
pub use meaning::{Invalid, clips, raises, value};
pub use object::{Object, Site, Storage};
pub use operands::are_operands;
pub use operator::{OPERATORS, Op};
pub use order::place;
pub use site::{Form, Guard, SiteKind};
pub use table::{arity, gives, name, of_name, takes};
