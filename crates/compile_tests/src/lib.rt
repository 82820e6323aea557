// Tests of the compiler, over the machine: images on the machine, against values that were worked out by hand.
#![tactic(auto)]

#[cfg(test)]
mod images;
#[cfg(test)]
mod memory;
