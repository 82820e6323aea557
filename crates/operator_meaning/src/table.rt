// The table of the operators: names, and widths of operands and results.

ghost use Rattle.std.specs.Prelude.{◌≡◌, ◌<◌, MatchOption, slice_index, length};
ghost use Rattle.operator_meaning.specs.Table.{row_of, arity_of, IsNameOf, IsNoName, width_at};

use crate::operator::{OPERATORS, Op};
use sat_base::Width;
use sat_base::Width::{W16, W32};

/// A row of the table.
#[derive(Clone, Copy)]
struct Row {
    name: &'static str,
    takes: &'static [Width],
    gives: Width,
    sets: bool,
}

impl Row {
    fn new(name: &'static str, takes: &'static [Width], gives: Width, sets: bool) -> Row
        ensures name { result.name.now ≡ name.now }
        ensures takes { result.takes.now ≡ takes.now }
        ensures gives { result.gives ≡ gives }
        ensures sets { result.sets ≡ sets }
    {
        Row {
            name,
            takes,
            gives,
            sets,
        }
    }
}

/// The row of the operator.
fn row_of(op: Op) -> Row
    ensures name { result.name.now ≡ (row_of op).name }
    ensures takes { result.takes.now ≡ (row_of op).takes }
    ensures gives { result.gives ≡ (row_of op).gives }
    ensures sets { result.sets ≡ (row_of op).sets }
{
    match op {
        Op::Add => Row::new("add", &[W16, W16], W16, true),
        Op::Sub => Row::new("sub", &[W16, W16], W16, true),
        Op::AbsS => Row::new("abs_s", &[W16], W16, false),
        Op::Shl => Row::new("shl", &[W16, W16], W16, true),
        Op::Shr => Row::new("shr", &[W16, W16], W16, true),
        Op::ExtractH => Row::new("extract_h", &[W32], W16, false),
        Op::ExtractL => Row::new("extract_l", &[W32], W16, false),
        Op::Mult => Row::new("mult", &[W16, W16], W16, true),
        Op::LMult => Row::new("L_mult", &[W16, W16], W32, true),
        Op::Negate => Row::new("negate", &[W16], W16, false),
        Op::Round => Row::new("round", &[W32], W16, true),
        Op::LMac => Row::new("L_mac", &[W32, W16, W16], W32, true),
        Op::LMsu => Row::new("L_msu", &[W32, W16, W16], W32, true),
        Op::MacR => Row::new("mac_r", &[W32, W16, W16], W16, true),
        Op::MsuR => Row::new("msu_r", &[W32, W16, W16], W16, true),
        Op::LAdd => Row::new("L_add", &[W32, W32], W32, true),
        Op::LSub => Row::new("L_sub", &[W32, W32], W32, true),
        Op::LNegate => Row::new("L_negate", &[W32], W32, false),
        Op::MultR => Row::new("mult_r", &[W16, W16], W16, true),
        Op::LShl => Row::new("L_shl", &[W32, W16], W32, true),
        Op::LShr => Row::new("L_shr", &[W32, W16], W32, true),
        Op::ShrR => Row::new("shr_r", &[W16, W16], W16, true),
        Op::LShrR => Row::new("L_shr_r", &[W32, W16], W32, true),
        Op::LAbs => Row::new("L_abs", &[W32], W32, false),
        Op::LDepositH => Row::new("L_deposit_h", &[W16], W32, false),
        Op::LDepositL => Row::new("L_deposit_l", &[W16], W32, false),
        Op::NormS => Row::new("norm_s", &[W16], W16, false),
        Op::NormL => Row::new("norm_l", &[W32], W16, false),
        Op::DivS => Row::new("div_s", &[W16, W16], W16, false),
    }
}

/// The widths of the operator's operands.
pub(crate) fn widths(op: Op) -> &'static [Width]
    ensures { result.now ≡ (row_of op).takes }
{
    row_of(op).takes
}

/// How many operands the operator takes.
pub fn arity(op: Op) -> u32
    ensures { result ≡ arity_of op }
{
    widths(op).len() as u32
}

/// The width of the operator's result.
pub fn gives(op: Op) -> Width
    ensures { result ≡ (row_of op).gives }
{
    row_of(op).gives
}

/// Whether the operator sets Overflow where a clip inside it changes a number. Some never do.
pub(crate) fn sets_overflow(op: Op) -> bool
    ensures { result ≡ (row_of op).sets }
{
    row_of(op).sets
}

/// The width of the operand at the place, counted from 0.
pub fn takes(op: Op, place: u32) -> Width
    requires { place < arity_of op }
    ensures { result ≡ width_at (row_of op).takes place }
{
    widths(op)[place as usize]
}

/// The name of the operator.
pub fn name(op: Op) -> &'static str
    ensures { result.now ≡ (row_of op).name }
{
    row_of(op).name
}

/// The operator of this name. The operator `round` has the name `round_fx` besides.
pub fn of_name(text: &str) -> Option<Op>
    ensures { MatchOption result (IsNoName text.now) (IsNameOf text.now) }
{
    if text == "round_fx" {
        return Some(Op::Round);
    }
    for op in &OPERATORS {
        if name(*op) == text {
            return Some(*op);
        }
    }
    None
}
