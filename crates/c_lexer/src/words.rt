// The words that the language keeps for itself.

ghost use Rattle.std.specs.Prelude.{◌≡◌};
ghost use Rattle.std.specs.List.{list_any};
ghost use Rattle.std.specs.Str.{bytes_eq};
ghost use Rattle.c_lexer.specs.Names.{is_reserved, is_basic, is_operator};

use operator_meaning::of_name;

/// The keywords of C90, and the words of the profile.
const RESERVED: [&str; 36] = [
    "auto", "break", "case", "char", "const", "continue", "default", "do", "double", "else",
    "enum", "extern", "float", "for", "goto", "if", "int", "long", "register", "return", "short",
    "signed", "sizeof", "static", "struct", "switch", "typedef", "union", "unsigned", "void",
    "volatile", "while", "Word16", "Word32", "Flag", "Overflow",
];

/// The calls that count, and the calls that read and write samples.
const CALLS: [&str; 8] = [
    "move16",
    "move32",
    "logic16",
    "logic32",
    "test",
    "sample_out",
    "sample_in",
    "sample_left",
];

/// Whether the word is one of these.
fn contains(words: &[&str], word: &[u8]) -> bool
    ensures { result ≡ list_any (λ w. bytes_eq w.now word.now) words.now }
{
    words.iter().any(|listed| listed.as_bytes() == word)
}

/// Whether the word is reserved.
pub(crate) fn is_reserved(word: &[u8]) -> bool
    ensures { result ≡ is_reserved word.now }
{
    contains(&RESERVED, word)
}

/// Whether the word is the name of a basic operator.
fn is_basic(word: &[u8]) -> bool
    ensures { result ≡ is_basic word.now }
{
    match str::from_utf8(word) {
        Ok(text) => of_name(text).is_some(),
        Err(_) => false,
    }
}

/// Whether the word is an operator, or another name that is always a function.
pub(crate) fn is_operator(word: &[u8]) -> bool
    ensures { result ≡ is_operator word.now }
{
    is_basic(word) || contains(&CALLS, word)
}
