// What follows from the constants alone.

ghost use Rattle.sat_base.specs.Limits.{AreLimits};

/// The limits are these numbers.
pub fn are_limits()
    ensures { AreLimits }
{}
