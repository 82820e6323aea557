// The weights against the table.

use operator_meaning::{OPERATORS, Op};
use weight_table::{Counted, Table, table_of, weight};

/// The first column of the operators' table, in the order of the operators.
const WEIGHTS: [u32; 29] = [
    1, 1, 1, 1, 1, 1, 1, 1, 1, 1, 1, 1, 1, 2, 2, 2, 2, 2, 2, 2, 2, 2, 3, 3, 2, 2, 15, 30, 18,
];

#[test]
fn weights_are_those_of_the_table(rt: HostRuntime) {
    for (op, weight_of_op) in OPERATORS.iter().zip(&WEIGHTS) {
        assert_eq!(rt;
            weight(Table::One, Counted::Call(*op)),
            *weight_of_op,
            "{op:?}"
        );
    }
    for (what, expected) in [
        (Counted::Move16, 1),
        (Counted::Move32, 2),
        (Counted::Logic16, 1),
        (Counted::Logic32, 2),
        (Counted::Test, 2),
        (Counted::Call(Op::DivS), 18),
    ] {
        assert_eq!(rt; weight(Table::One, what), expected, "{what:?}");
    }
}

#[test]
fn one_number_has_a_table(rt: HostRuntime) {
    assert_eq!(rt; table_of(1), Some(Table::One));
    for number in [0, 2, 3, u32::MAX] {
        assert_eq!(rt; table_of(number), None, "at {number}");
    }
}
