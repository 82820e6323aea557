// What ranges of operands make of the operators, of plain arithmetic, and of relations: the least ranges of
// results, the corners at which a site clips or stops, and the ranges that a condition leaves.
#![tactic(auto)]

pub mod bits;
pub mod corner;
mod cornered;
mod first;
mod fraction;
mod hull;
mod low_half;
mod operators;
mod plain;
mod question;
pub mod relation;
mod sign;

pub use bits::{BitMark, image_bits};
pub use corner::Corner;
pub use first::{saturating_corner, stopping_corner};
pub use operators::image;
pub use plain::image_plain;
pub use relation::{Rel, refine_false, refine_true};
