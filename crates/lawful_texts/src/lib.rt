// What the grammar gives of what is lawful: laws alone, one for each line of it that follows from the spelling.
#![tactic(auto)]

mod laws;

pub use laws::{constants_stand, definitions_differ, sites_have_own_tokens, texts_are_spelled};
