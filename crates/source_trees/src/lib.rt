// The tree of a source: which tree each part of a source is, in the specifications, and that it does what the part
// does.
#![tactic(auto)]
