// What follows of many calls of `run`.

ghost use Rattle.rv_emulator.specs.After.{CallsFollow};

/// After any calls of `run` the machine is where so many instructions lead by which they lowered `left` in all, and
/// the samples that they told are its output.
pub fn calls_follow()
    ensures { CallsFollow }
{}
