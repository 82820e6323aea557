// Values of operators.

use operator_meaning::{are_operands, clips, of_name, raises, value};
use std::alloc::{AllocError, Global};

/// The value of an operator over these numbers, and whether it sets Overflow, or a clip alone changes a number.
pub fn value_of(alloc: Global, text: &str) -> Result<String, AllocError> {
    let (name, rest) = text.split_once(' ').unwrap_or((text, ""));
    let mut numbers = Vec::new(alloc);
    for number in rest.split_whitespace() {
        if let Ok(number) = number.parse::<i32>() {
            numbers.push(number)?;
        }
    }
    let args = numbers.as_slice();
    let Some(op) = of_name(name) else {
        return format!(in alloc; "no operator: {text}");
    };
    if !are_operands(op, args) {
        return format!(in alloc; "no operands: {text}");
    }
    let effect = match (raises(op, args), clips(op, args)) {
        (true, true) => ", sets Overflow",
        (true, false) => ", sets Overflow without a clip",
        (false, true) => ", clips",
        (false, false) => "",
    };
    match value(op, args) {
        Ok(number) => format!(in alloc; "{number}{effect}"),
        Err(_) => format!(in alloc; "no value{effect}"),
    }
}
