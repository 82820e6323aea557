// Walks of a tree: which steps can follow one another in it, over any kind of step; in the specifications.
#![tactic(auto)]
