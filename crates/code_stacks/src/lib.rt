// The stack of values on which expressions are evaluated, and what holds of source and machine between parts of code.
#![tactic(auto)]
