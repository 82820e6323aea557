// Tests of image files and sample files. The numbers are worked out by hand from the tables of their formats.
#![tactic(auto)]

#[cfg(test)]
mod images;
#[cfg(test)]
mod samples;
