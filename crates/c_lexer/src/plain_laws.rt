// What the definitions of bytes, words, places and numbers come to, in plainer words.

ghost use Rattle.c_lexer.specs.PlainLaws.{WhiteBytes, ReservedWords, LinesAreCounted, ColumnsAreCounted, ValuesOfNumbers};

/// White space is a space, a tab, a line feed, a vertical tab, a form feed or a carriage return.
pub fn white_bytes()
    ensures { WhiteBytes }
{}

/// The reserved words are the 32 keywords of C90 (ISO/IEC 9899:1990, 6.1.1) and the four of the profile.
pub fn reserved_words()
    ensures { ReservedWords }
{}

/// A place is told by the line feeds before it, and by the bytes after the last of them.
pub fn places_are_counted()
    ensures lines { LinesAreCounted }
    ensures columns { ColumnsAreCounted }
{}

/// The value of a number is the one that its digits write, up to 2147483647, or 0xFFFFFFFF as a pattern of 32 bits.
pub fn values_of_numbers()
    ensures { ValuesOfNumbers }
{}
