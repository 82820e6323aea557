// One or two ranges of 32 bits.

ghost use Rattle.range_core.specs.Range.{IsRange};

use crate::spelled::{shown, shown_corner};
use operator_meaning::SiteKind;
use range_core::{Range, contains, join, meet};
use range_transfer::{
    BitMark, Rel, image_bits, image_plain, refine_false, refine_true, stopping_corner,
};
use std::alloc::{AllocError, Global};

/// What a word makes of two ranges; none where it is no such word.
pub fn of_two(
    alloc: Global,
    word: &str,
    left: Range,
    right: Range,
) -> Result<Option<String>, AllocError>
    requires left { IsRange left }
    requires right { IsRange right }
{
    let range = match word {
        "join" => join(left, right),
        "meet" => meet(left, right),
        "sum" => image_plain(SiteKind::Sum, &[left, right]),
        "difference" => image_plain(SiteKind::Difference, &[left, right]),
        "product" => image_plain(SiteKind::Product, &[left, right]),
        "and" => image_bits(BitMark::And, left, right),
        "or" => image_bits(BitMark::Or, left, right),
        "xor" => image_bits(BitMark::Xor, left, right),
        _ => return of_relation(alloc, word, left, right),
    };
    Ok(Some(shown(alloc, range)?))
}

fn relation_of(text: &str) -> Option<Rel> {
    match text {
        "<" => Some(Rel::Lt),
        "<=" => Some(Rel::Le),
        ">" => Some(Rel::Gt),
        ">=" => Some(Rel::Ge),
        "==" => Some(Rel::Eq),
        "!=" => Some(Rel::Ne),
        _ => None,
    }
}

fn of_relation(
    alloc: Global,
    word: &str,
    left: Range,
    right: Range,
) -> Result<Option<String>, AllocError>
    requires left { IsRange left }
    requires right { IsRange right }
{
    if word == "contains" {
        let answer = if contains(left, right) { "yes" } else { "no" };
        return Ok(Some(String::from_str(alloc, answer)?));
    }
    if word == "product-stops" {
        let corner = stopping_corner(SiteKind::Product, &[left, right]);
        return Ok(Some(shown_corner(alloc, corner)?));
    }
    let (truth, mark) = match word.strip_prefix("not") {
        Some(mark) => (false, mark),
        None => (true, word),
    };
    let Some(rel) = relation_of(mark) else {
        return Ok(None);
    };
    let (left, right) = if truth {
        refine_true(rel, left, right)
    } else {
        refine_false(rel, left, right)
    };
    let left = shown(alloc, left)?;
    let right = shown(alloc, right)?;
    Ok(Some(format!(in alloc; "{left}, {right}")?))
}

/// What a word makes of one range; none where it is no such word.
pub fn of_one(alloc: Global, word: &str, range: Range) -> Result<Option<String>, AllocError>
    requires { IsRange range }
{
    let answer = match word {
        "opposite" => shown(alloc, image_plain(SiteKind::Opposite, &[range]))?,
        "opposite-stops" => shown_corner(alloc, stopping_corner(SiteKind::Opposite, &[range]))?,
        "bound-10-stops" => shown_corner(alloc, stopping_corner(SiteKind::Bound(10), &[range]))?,
        _ => return Ok(None),
    };
    Ok(Some(answer))
}
