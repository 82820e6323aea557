// Tests of the fields of instructions, of the bytes of images, and of the outside of the program. What instructions do,
// and which words they have, is tried by the program `machine_runs`.
#![tactic(auto)]

#[cfg(test)]
mod fields;
#[cfg(test)]
mod images;
#[cfg(test)]
mod outside;
