// Tests of the operators, their weights, and what they stand on.
#![tactic(auto)]

#[cfg(test)]
mod clips;
#[cfg(test)]
mod names;
#[cfg(test)]
mod weights;
