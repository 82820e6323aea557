// What follows from the table and the lines of the operators alone.

ghost use Rattle.operator_meaning.specs.Laws.{NamesAreDistinct, ValuesFit, CountsTurn, ShiftsRound, SignsDiffer, NormsReach};
ghost use Rattle.operator_meaning.specs.Order.{OrderIsOne};

/// A text is the name of at most one operator. So `of_name` inverts `name`.
pub fn names_are_distinct()
    ensures { NamesAreDistinct }
{}

/// A value lies in the width of the operator's result.
pub fn values_fit()
    ensures { ValuesFit }
{}

/// A shift by a negative count is the other shift by its opposite.
pub fn counts_turn()
    ensures { CountsTurn }
{}

/// `shr_r` and `L_shr_r` are `shr` and `L_shr` with rounding.
pub fn shifts_round()
    ensures { ShiftsRound }
{}

/// `L_mac` and `L_msu` differ in the sign of the product where no clip changes a number.
pub fn signs_differ()
    ensures { SignsDiffer }
{}

/// `norm_s` and `norm_l` give the shifts that bring a number other than 0 into its interval.
pub fn norms_reach()
    ensures { NormsReach }
{}

/// The list of all operators has each of them at its place.
pub fn order_is_one()
    ensures { OrderIsOne }
{}
