// Cuts the text of a source into tokens.
#![tactic(auto)]

mod bytes;
mod cursor;
mod cutting_laws;
mod directive;
mod expression;
mod laws;
mod lexeme;
mod lexer;
mod names;
mod number;
mod plain_laws;
mod token;
mod words;

pub use cutting_laws::{
    fronts_are_longest, kinds_are_apart, lines_are_longest, only_cutting, operators_are_named,
    pieces_are_longest, pieces_follow, pieces_make_the_text,
};
pub use laws::{directives_are_obeyed, values_of_definitions, values_of_sums};
pub use lexer::tokens;
pub use plain_laws::{places_are_counted, reserved_words, values_of_numbers, white_bytes};
pub use token::{LexRefusal, Token, TokenKind, Tokens};
