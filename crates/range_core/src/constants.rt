// The thresholds of a source. The ranges at its loops end there, so that they can grow few times only.

ghost use Rattle.std.specs.Prelude.{◌∷◌, [], IfOk, length};
ghost use Rattle.range_core.specs.Thresholds.{AreThresholds, near_power};
ghost use Rattle.range_core.specs.Kept.{Adds, IsInRows, IsKept, constant_row};

use crate::rounding::Thresholds;
use sat_base::Memory;
use std::alloc::{AllocError, Global};

/// Adds the number, if it has 32 bits.
fn keep(values: &mut Vec<i32>, x: i64) -> Result<(), AllocError>
    ensures { IfOk result (λ _. Adds values.old.items (IsKept (x ∷ [])) values.new.items) }
{
    if -2_147_483_648 <= x && x <= 2_147_483_647 {
        values.push(x as i32)?;
    }
    Ok(())
}

/// Adds those of the numbers that have 32 bits.
fn keep_all(values: &mut Vec<i32>, xs: &[i64]) -> Result<(), AllocError>
    ensures { IfOk result (λ _. Adds values.old.items (IsKept xs.now) values.new.items) }
{
    for x in xs {
        keep(values, *x)?;
    }
    Ok(())
}

/// Adds the powers of two up to 2^31, the numbers below them, and their opposites.
fn keep_powers(values: &mut Vec<i32>) -> Result<(), AllocError>
    ensures { IfOk result (λ _. Adds values.old.items (IsInRows near_power 32) values.new.items) }
{
    let mut power: i64 = 1;
    for k in 0..32u32 {
        keep_all(values, &[power, power - 1, -power])?;
        power *= 2;
    }
    Ok(())
}

/// Adds the constants and the numbers beside them.
fn keep_constants(values: &mut Vec<i32>, constants: &[i32]) -> Result<(), AllocError>
    ensures { IfOk result (λ _. Adds values.old.items (IsInRows (constant_row constants.now) (length constants.now)) values.new.items) }
{
    for constant in constants {
        let c = i64::from(*constant);
        keep_all(values, &[c - 1, c, c + 1])?;
    }
    Ok(())
}

/// The thresholds of a source with these relational constants. It is refused for want of memory alone.
pub fn thresholds(alloc: Global, constants: &[i32]) -> Result<Thresholds, Memory>
    ensures { IfOk result (AreThresholds constants.now) }
{
    let mut values = Vec::new(alloc);
    keep_powers(&mut values)?;
    keep_constants(&mut values, constants)?;
    values.sort()?;
    Ok(Thresholds { values })
}
