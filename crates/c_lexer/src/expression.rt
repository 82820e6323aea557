// The values of the bracketed expressions of directives.

ghost use Rattle.std.specs.Prelude.{◌≡◌, map, true, IfOk, if◌then◌else◌};
ghost use Rattle.std.specs.Str.{bytes_eq};
ghost use Rattle.c_lexer.specs.Expression.{signed_of, product_of, total_of, after_factor, after_term, with_sign, first_frame, first_evaluation, at_operand, at_mark, after_part, after_parts, closed, final_value, expression_value, operand_of};
ghost use Rattle.c_lexer.specs.Views.{part_of, names_of, Steps};

use crate::lexeme::Kind;
use crate::names::Names;
use crate::number::number_value;
use sqlite_items::Items;
use std::alloc::{AllocError, Global};

/// A piece of a directive that is neither white space nor a comment.
#[derive(Clone, Copy)]
pub(crate) struct Part<'a> {
    pub(crate) kind: Kind,
    pub(crate) bytes: &'a [u8],
    /// Whether white space or a comment stands before it.
    pub(crate) spaced: bool,
}

impl Part<'_> {
    /// Whether the part is this text.
    pub(crate) fn is(self, text: &str) -> bool
        ensures { result ≡ bytes_eq self.entry.bytes.now text.now }
    {
        self.bytes == text.as_bytes()
    }
}

/// The value of a number or of a defined name.
pub(crate) fn operand(names: &Names, part: Part) -> Option<i32>
    ensures { result ≡ operand_of (names_of names.now) (part_of part.entry) }
{
    match part.kind {
        Kind::Number => number_value(part.bytes),
        Kind::Word => names.value_of(part.bytes),
        _ => None,
    }
}

/// What stands before an operand in one pair of brackets.
#[derive(Clone, Copy)]
struct Frame {
    /// The sum of the terms so far.
    sum: i32,
    /// Whether the next term is subtracted from it.
    subtracts: bool,
    /// The product of the factors so far.
    factor: i32,
    /// Whether a sign stands before the operand.
    negated: bool,
    /// Whether the signs before the operand are odd in number.
    negative: bool,
}

impl Frame {
    /// After an opening bracket.
    fn new() -> Frame
        ensures { result ≡ first_frame }
    {
        Frame {
            sum: 0,
            subtracts: false,
            factor: 1,
            negated: false,
            negative: false,
        }
    }

    /// One more sign before the operand.
    fn with_sign(self) -> Frame
        ensures { result ≡ with_sign self }
    {
        Frame {
            sum: self.sum,
            subtracts: self.subtracts,
            factor: self.factor,
            negated: true,
            negative: !self.negative,
        }
    }

    /// A factor is wanted after this product.
    fn after_factor(self, product: i32) -> Frame
        ensures { result ≡ after_factor self product }
    {
        Frame {
            sum: self.sum,
            subtracts: self.subtracts,
            factor: product,
            negated: false,
            negative: false,
        }
    }

    /// A term is wanted after this sum.
    fn after_term(sum: i32, subtracts: bool) -> Frame
        ensures { result ≡ after_term sum subtracts }
    {
        Frame {
            sum,
            subtracts,
            factor: 1,
            negated: false,
            negative: false,
        }
    }

    /// The operand with its signs, if every value on the way lies within 32 bits.
    #[tactic(auto, using(crate::proofs::Facts::within_from), unfolding(crate::specs::Expression::signed_of))]
    fn signed(self, operand: i32) -> Option<i32>
        ensures { result ≡ signed_of self operand }
    {
        if !self.negated {
            return Some(operand);
        }
        let opposite = operand.checked_neg()?;
        Some(if self.negative { opposite } else { operand })
    }

    /// The product up to the operand, if every value on the way lies within 32 bits.
    #[tactic(auto, using(crate::proofs::Facts::within_from), unfolding(crate::specs::Expression::product_of))]
    fn product(self, operand: i32) -> Option<i32>
        ensures { result ≡ product_of self operand }
    {
        let signed = self.signed(operand)?;
        self.factor.checked_mul(signed)
    }

    /// The sum up to the product, if it lies within 32 bits.
    #[tactic(auto, using(crate::proofs::Facts::within_from), unfolding(crate::specs::Expression::total_of))]
    fn total(self, product: i32) -> Option<i32>
        ensures { result ≡ total_of self product }
    {
        if self.subtracts {
            self.sum.checked_sub(product)
        } else {
            self.sum.checked_add(product)
        }
    }
}

/// An expression that is read from left to right.
#[derive(Drop)]
struct Evaluation {
    /// The brackets around the innermost ones.
    outer: Items<Frame>,
    frame: Frame,
    /// The product up to the operand that was read last, unless an operand comes next.
    value: Option<i32>,
}

impl Evaluation {
    fn new(alloc: Global) -> Evaluation
        ensures { result ≡ first_evaluation }
    {
        Evaluation {
            outer: Items::new(alloc),
            frame: Frame::new(),
            value: None,
        }
    }

    /// Reads what stands where an operand is wanted, and answers whether it may stand there.
    #[tactic(auto, unfolding(crate::specs::Expression::at_operand))]
    fn at_operand(&mut self, names: &Names, part: Part) -> Result<bool, AllocError>
        ensures { Steps (at_operand (names_of names.now) self.old (part_of part.entry)) self.new result }
    {
        if part.is("(") {
            self.outer.push(self.frame)?;
            self.frame = Frame::new();
            self.value = None;
            return Ok(true);
        }
        if part.is("-") {
            self.frame = self.frame.with_sign();
            return Ok(true);
        }
        let Some(operand) = operand(names, part) else {
            return Ok(false);
        };
        let product = self.frame.product(operand);
        self.value = product;
        Ok(product.is_some())
    }

    /// Reads a mark after an operand, and answers whether it may stand there.
    #[tactic(auto, unfolding(crate::specs::Expression::at_mark))]
    fn at_mark(&mut self, product: i32, part: Part) -> bool
        ensures { at_mark self.old product (part_of part.entry) ≡ (if result then Some self.new else None) }
    {
        if part.is("*") {
            self.frame = self.frame.after_factor(product);
            self.value = None;
            return true;
        }
        let Some(total) = self.frame.total(product) else {
            return false;
        };
        if part.is("+") {
            self.begin_term(total, false)
        } else if part.is("-") {
            self.begin_term(total, true)
        } else if part.is(")") {
            self.close(total)
        } else {
            false
        }
    }

    /// A term is wanted after this sum.
    fn begin_term(&mut self, total: i32, subtracts: bool) -> bool
        ensures begun { self.new ≡ record self.old { frame = after_term total subtracts; value = None } }
        ensures is { result ≡ true }
    {
        self.frame = Frame::after_term(total, subtracts);
        self.value = None;
        true
    }

    /// Ends the innermost brackets, whose value is this, and answers whether they are inside others.
    #[tactic(auto, using(crate::proofs::Facts::split_last_snoc, crate::proofs::Facts::split_last_none), unfolding(crate::specs::Expression::closed))]
    fn close(&mut self, total: i32) -> bool
        ensures { closed self.old total ≡ (if result then Some self.new else None) }
    {
        let Some(frame) = self.outer.pop() else {
            return false;
        };
        let product = frame.product(total);
        self.frame = frame;
        self.value = product;
        product.is_some()
    }

    /// Reads the next part of the expression, and answers whether it may stand there.
    fn read(&mut self, names: &Names, part: Part) -> Result<bool, AllocError>
        ensures { Steps (after_part (names_of names.now) self.old (part_of part.entry)) self.new result }
    {
        match self.value {
            None => self.at_operand(names, part),
            Some(product) => Ok(self.at_mark(product, part)),
        }
    }

    /// The value at the end of the expression, unless brackets are open or an operand is wanted.
    #[tactic(auto, unfolding(crate::specs::Expression::final_value))]
    fn value(&self) -> Option<i32>
        ensures { result ≡ final_value self.now }
    {
        if !self.outer.is_empty() {
            return None;
        }
        self.frame.total(self.value?)
    }
}

/// The value of the expression, if it has one.
pub(crate) fn expression_value(
    alloc: Global,
    names: &Names,
    parts: &[Part],
) -> Result<Option<i32>, AllocError>
    ensures { IfOk result (λ value. value ≡ expression_value (names_of names.now) (map part_of parts.now)) }
{
    let mut evaluation = Evaluation::new(alloc);
    for part in parts {
        if !evaluation.read(names, *part)? {
            return Ok(None);
        }
    }
    Ok(evaluation.value())
}
