// The nodes of the tree.

use crate::target::Target;
use c_tree::{AssignMark, BinaryMark};
use operator_meaning::SiteKind;
use sat_base::{Pos, Width};

/// One node of the tree: first those that give a value, then what changes the state, then statements.
/// Objects, functions, sites and cuts go by their numbers in the `Ir`.
#[cycle(node)]
#[derive(Clone, Copy)]
pub enum Node<'a> {
    /// A number.
    Constant {
        value: i32,
    },
    /// The value of an element.
    Read {
        target: Target<'a>,
    },
    /// A view that is an argument or an initial value. Without an index it is the whole object or the view
    /// itself.
    Address {
        target: Target<'a>,
    },
    /// What a site computes or checks. The weight is 0 for every kind but an operator.
    Operate {
        site: u32,
        kind: SiteKind,
        operands: &'a [Node<'a>],
        weight: u32,
    },
    /// A conversion: a cast that is written out, or an implied one.
    Convert {
        cast: bool,
        width: Width,
        part: &'a Node<'a>,
    },
    /// `!part`
    Not {
        part: &'a Node<'a>,
    },
    /// `~part`
    Invert {
        part: &'a Node<'a>,
    },
    /// A mark between two operands that is no site: never a plain sum, difference or product.
    Binary {
        mark: BinaryMark,
        left: &'a Node<'a>,
        right: &'a Node<'a>,
    },
    /// `cond ? yes : no`
    Choose {
        cond: &'a Node<'a>,
        yes: &'a Node<'a>,
        no: &'a Node<'a>,
    },
    /// A call of a function of the source.
    Call {
        function: u32,
        args: &'a [Node<'a>],
    },
    /// The value of `Overflow`, at its place in the text.
    ReadFlag {
        pos: Pos,
    },
    /// `sample_left()`
    Left,
    /// An assignment with its mark. The width is the target's, to which a compound assignment converts; the
    /// site is that of a mark which is one.
    Write {
        target: Target<'a>,
        mark: AssignMark,
        width: Width,
        site: Option<u32>,
        value: &'a Node<'a>,
    },
    /// `++` where it is up, and else `--`. The width is the target's.
    Step {
        target: Target<'a>,
        up: bool,
        width: Width,
        site: u32,
    },
    /// `Overflow = value`
    WriteFlag {
        value: &'a Node<'a>,
    },
    /// `sample_out(value)`
    Out {
        value: &'a Node<'a>,
    },
    /// A counting call, with its weight.
    AddCount {
        weight: u32,
    },
    /// An object of a block starts with this value.
    Start {
        object: u32,
        value: &'a Node<'a>,
    },
    /// `;`
    Empty,
    /// A block: its objects are numbered from the first on, and those that have a value to start with have a
    /// `Start` each.
    Block {
        first: u32,
        objects: u32,
        starts: &'a [Node<'a>],
        parts: &'a [Node<'a>],
    },
    /// `if (cond) yes`, or `if (cond) yes else no`.
    If {
        cond: &'a Node<'a>,
        yes: &'a Node<'a>,
        no: Option<&'a Node<'a>>,
    },
    /// One of the three loops, with the number of its cut. `do` does not test before its first turn. A
    /// missing condition always holds.
    Loop {
        cut: u32,
        tests_first: bool,
        first: &'a [Node<'a>],
        cond: Option<&'a Node<'a>>,
        last: &'a [Node<'a>],
        body: &'a Node<'a>,
    },
    /// `continue` where it is again, and else `break`.
    Leave {
        again: bool,
    },
    /// `return`, with its value where it has one.
    Return {
        value: Option<&'a Node<'a>>,
    },
}
