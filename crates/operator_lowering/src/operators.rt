// The words of operators, which do not stop.

ghost use Rattle.std.specs.Prelude.{◌≡◌, ◌++◌};
ghost use Rattle.operator_lowering.specs.Words.{by_form, operator_words};

use crate::tables::accumulations::{
    L_MAC_CLAMP, L_MAC_FLAG, L_MAC_PLAIN, L_MSU_CLAMP, L_MSU_FLAG, L_MSU_PLAIN, MAC_CLAMP,
    MAC_FLAG, MAC_PLAIN, MSU_CLAMP, MSU_FLAG, MSU_PLAIN,
};
use crate::tables::clips::{CLIP_16_CLAMP, CLIP_16_FLAG, CLIP_FRACTION_CLAMP, CLIP_FRACTION_FLAG};
use crate::tables::halves::{
    ABS_16, ABS_32, ABS_PLAIN, DEPOSIT_H, EXTRACT_H, EXTRACT_L, NEGATE_16, NEGATE_32, NEGATE_PLAIN,
};
use crate::tables::long_shifts::{
    L_SHL_CLAMP, L_SHL_FLAG, L_SHR_CLAMP, L_SHR_FLAG, L_SHR_R_CLAMP, L_SHR_R_FLAG,
};
use crate::tables::norms::{NORM_L, NORM_S};
use crate::tables::plain_shifts::{L_SHR_R_PLAIN, SHL_PLAIN, SHR_PLAIN, SHR_R_PLAIN};
use crate::tables::products::{DIVIDE, L_MULT_CLAMP, L_MULT_FLAG, L_MULT_PLAIN, MULT, MULT_R};
use crate::tables::short_shifts::{
    SHL_CLAMP, SHL_FLAG, SHR_CLAMP, SHR_FLAG, SHR_R_CLAMP, SHR_R_FLAG,
};
use crate::tables::sums::{
    DIFFERENCE, L_ADD_CLAMP, L_ADD_FLAG, L_ADD_IN_PLACE_CLAMP, L_ADD_IN_PLACE_FLAG, L_SUB_CLAMP,
    L_SUB_FLAG, L_SUB_IN_PLACE_CLAMP, L_SUB_IN_PLACE_FLAG, ROUND_CLAMP, ROUND_FLAG, ROUND_PLAIN,
    ROUND_SUM_CLAMP, ROUND_SUM_FLAG, SUM,
};
use operator_meaning::{Form, Op};
use rv_encode::Instr;

// One of three by the form.
fn by_form(
    form: Form,
    plain: &'static [Instr],
    clamp: &'static [Instr],
    flag: &'static [Instr],
) -> &'static [Instr]
    ensures { result.now ≡ by_form plain.now clamp.now flag.now form }
{
    match form {
        Form::Plain => plain,
        Form::Clamp => clamp,
        Form::Flag => flag,
    }
}

/// The words of an operator, in two parts, by whether the result has the register of the second operand.
pub(crate) fn operator_words(
    op: Op,
    form: Form,
    in_place: bool,
) -> (&'static [Instr], &'static [Instr])
    ensures { result.0.now ++ result.1.now ≡ operator_words op form in_place }
{
    match op {
        Op::Add => (&SUM, by_form(form, &[], &CLIP_16_CLAMP, &CLIP_16_FLAG)),
        Op::Sub => (
            &DIFFERENCE,
            by_form(form, &[], &CLIP_16_CLAMP, &CLIP_16_FLAG),
        ),
        Op::AbsS => (&[], by_form(form, &ABS_PLAIN, &ABS_16, &ABS_16)),
        Op::Shl => (&[], by_form(form, &SHL_PLAIN, &SHL_CLAMP, &SHL_FLAG)),
        Op::Shr => (&[], by_form(form, &SHR_PLAIN, &SHR_CLAMP, &SHR_FLAG)),
        Op::ExtractH => (&[], &EXTRACT_H),
        Op::ExtractL => (&[], &EXTRACT_L),
        Op::Mult => (
            &MULT,
            by_form(form, &[], &CLIP_FRACTION_CLAMP, &CLIP_FRACTION_FLAG),
        ),
        Op::LMult => (
            &[],
            by_form(form, &L_MULT_PLAIN, &L_MULT_CLAMP, &L_MULT_FLAG),
        ),
        Op::Negate => (&[], by_form(form, &NEGATE_PLAIN, &NEGATE_16, &NEGATE_16)),
        Op::Round => (&[], by_form(form, &ROUND_PLAIN, &ROUND_CLAMP, &ROUND_FLAG)),
        Op::LMac => (&[], by_form(form, &L_MAC_PLAIN, &L_MAC_CLAMP, &L_MAC_FLAG)),
        Op::LMsu => (&[], by_form(form, &L_MSU_PLAIN, &L_MSU_CLAMP, &L_MSU_FLAG)),
        Op::MacR => (
            by_form(form, &MAC_PLAIN, &MAC_CLAMP, &MAC_FLAG),
            by_form(form, &[], &ROUND_SUM_CLAMP, &ROUND_SUM_FLAG),
        ),
        Op::MsuR => (
            by_form(form, &MSU_PLAIN, &MSU_CLAMP, &MSU_FLAG),
            by_form(form, &[], &ROUND_SUM_CLAMP, &ROUND_SUM_FLAG),
        ),
        Op::LAdd if in_place => (
            &[],
            by_form(form, &SUM, &L_ADD_IN_PLACE_CLAMP, &L_ADD_IN_PLACE_FLAG),
        ),
        Op::LAdd => (&[], by_form(form, &SUM, &L_ADD_CLAMP, &L_ADD_FLAG)),
        Op::LSub if in_place => (
            &[],
            by_form(
                form,
                &DIFFERENCE,
                &L_SUB_IN_PLACE_CLAMP,
                &L_SUB_IN_PLACE_FLAG,
            ),
        ),
        Op::LSub => (&[], by_form(form, &DIFFERENCE, &L_SUB_CLAMP, &L_SUB_FLAG)),
        Op::LNegate => (&[], by_form(form, &NEGATE_PLAIN, &NEGATE_32, &NEGATE_32)),
        Op::MultR => (
            &MULT_R,
            by_form(form, &[], &CLIP_FRACTION_CLAMP, &CLIP_FRACTION_FLAG),
        ),
        Op::LShl => (&[], by_form(form, &SHL_PLAIN, &L_SHL_CLAMP, &L_SHL_FLAG)),
        Op::LShr => (&[], by_form(form, &SHR_PLAIN, &L_SHR_CLAMP, &L_SHR_FLAG)),
        Op::ShrR => (&[], by_form(form, &SHR_R_PLAIN, &SHR_R_CLAMP, &SHR_R_FLAG)),
        Op::LShrR => (
            &[],
            by_form(form, &L_SHR_R_PLAIN, &L_SHR_R_CLAMP, &L_SHR_R_FLAG),
        ),
        Op::LAbs => (&[], by_form(form, &ABS_PLAIN, &ABS_32, &ABS_32)),
        Op::LDepositH => (&[], &DEPOSIT_H),
        Op::LDepositL => (&[], &[]),
        Op::NormS => (&[], &NORM_S),
        Op::NormL => (&[], &NORM_L),
        Op::DivS => (&[], &DIVIDE),
    }
}
