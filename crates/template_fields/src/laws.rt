// What holds of the words of every site, in each form and over the registers of any site.

ghost use Rattle.template_fields.specs.Laws.{GuardsThatCannotStop, OnlyFlagsWriteOverflow, TemplatesAreShort, TemplatesFit};

/// Each field of each word is in the range of its format, so each word can be encoded.
pub fn templates_fit()
    ensures { TemplatesFit }
{}

/// No site has more than 96 words.
pub fn templates_are_short()
    ensures { TemplatesAreShort }
{}

/// No word writes Overflow but in form Flag.
pub fn only_flags_write_overflow()
    ensures { OnlyFlagsWriteOverflow }
{}

/// Where an operator cannot stop, its words are the same with its guard and without.
pub fn guards_that_cannot_stop()
    ensures { GuardsThatCannotStop }
{}
