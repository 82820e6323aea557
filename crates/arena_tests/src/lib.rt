// Trees in an arena, tried.
#![tactic(auto)]

pub mod placing;
#[cfg(test)]
mod tests;
