// Ranges as lines spell them.

use range_core::Range;
use range_transfer::Corner;
use std::alloc::{AllocError, Global};

/// The ranges between commas, each `none` or its two ends.
pub fn ranges_in(alloc: Global, text: &str) -> Result<Vec<Range>, AllocError> {
    let mut ranges = Vec::new(alloc);
    for part in text.split(',') {
        let mut ends = part.split_whitespace();
        let lo = ends.next().and_then(|end| end.parse::<i64>().ok());
        let hi = ends.next().and_then(|end| end.parse::<i64>().ok());
        ranges.push(match (lo, hi) {
            (Some(lo), Some(hi)) => Range::Span { lo, hi },
            _ => Range::Empty,
        })?;
    }
    Ok(ranges)
}

/// The ends of a range.
pub fn shown(alloc: Global, range: Range) -> Result<String, AllocError> {
    match range {
        Range::Empty => String::from_str(alloc, "none"),
        Range::Span { lo, hi } => format!(in alloc; "{lo} {hi}"),
    }
}

/// The operands of a corner.
pub fn shown_corner(alloc: Global, corner: Option<Corner>) -> Result<String, AllocError> {
    match corner {
        None => String::from_str(alloc, "nowhere"),
        Some(corner) => {
            let (first, second, third) = (corner.first, corner.second, corner.third);
            match corner.count {
                1 => format!(in alloc; "{first}"),
                2 => format!(in alloc; "{first} {second}"),
                _ => format!(in alloc; "{first} {second} {third}"),
            }
        }
    }
}
