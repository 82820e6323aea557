// The least and the greatest number at the corners of a box.

ghost use Rattle.std.specs.Prelude.{◌+◌, ◌≤◌, length};
ghost use Rattle.range_transfer.specs.Box.{operands_of, corners};
ghost use Rattle.range_transfer.specs.Fitting.{AreRanges, AllFit};
ghost use Rattle.range_transfer.specs.Image.{AreExtremesAt};
ghost use Rattle.range_transfer.specs.Site.{GivesNumber};

use crate::corner::Corner;
use crate::question::number;
use operator_meaning::SiteKind;
use range_core::Range;

/// The least and the greatest of some numbers.
#[derive(Clone, Copy)]
pub(crate) struct Extremes {
    pub(crate) least: i64,
    pub(crate) most: i64,
}

/// The extremes of a site's numbers at the corners of these ranges, after the operands that are given; none
/// where a range is empty.
pub(crate) fn hull(kind: SiteKind, given: Corner, ranges: &[Range]) -> Option<Extremes>
    requires gives { GivesNumber kind }
    requires count { given.count + length ranges.now ≤ 3 }
    requires ranges { AreRanges ranges.now }
    requires fit { AllFit kind (corners (operands_of given) ranges.now) }
    ensures { AreExtremesAt kind (operands_of given) ranges.now result }
{
    let [range, ranges @ ..] = ranges else {
        let number = number(kind, given);
        return Some(Extremes {
            least: number,
            most: number,
        });
    };
    let Range::Span { lo, hi } = *range else {
        return None;
    };
    let low = hull(kind, given.with(lo as i32), ranges)?;
    let high = hull(kind, given.with(hi as i32), ranges)?;
    Some(Extremes {
        least: low.least.min(high.least),
        most: low.most.max(high.most),
    })
}
