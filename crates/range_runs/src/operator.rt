// Operators over boxes.

use crate::fitting::operands_fit;
use crate::spelled::{ranges_in, shown, shown_corner};
use operator_meaning::{Op, SiteKind};
use range_transfer::{image, saturating_corner, stopping_corner};
use std::alloc::{AllocError, Global};

/// The first corner of the box at which a clip changes a number, and the first at which the operator stops.
pub fn corners_of(alloc: Global, op: Op, text: &str) -> Result<String, AllocError> {
    let ranges = ranges_in(alloc, text)?;
    let operands = ranges.as_slice();
    if !operands_fit(op, operands) {
        return format!(in alloc; "no box: {text}");
    }
    let clips = shown_corner(alloc, saturating_corner(op, operands))?;
    let stops = shown_corner(alloc, stopping_corner(SiteKind::Call(op), operands))?;
    format!(in alloc; "clips at {clips}, stops at {stops}")
}

/// The least range of the values of an operator over the box.
pub fn image_of(alloc: Global, op: Op, text: &str) -> Result<String, AllocError> {
    let ranges = ranges_in(alloc, text)?;
    let operands = ranges.as_slice();
    if !operands_fit(op, operands) {
        return format!(in alloc; "no box: {text}");
    }
    shown(alloc, image(op, operands))
}
