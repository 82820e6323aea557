// Lawful sources: what holds of every source whose names are tied, read of its numbers alone; in the
// specifications.
#![tactic(auto)]
