// What is proved of reading one token.

ghost use Rattle.right_reading.specs.RightTokens.{TokensAreRead};

/// Whatever the limit, a quoted token, a name and a number are read rightly.
pub fn tokens_are_read()
    ensures { TokensAreRead }
{}
