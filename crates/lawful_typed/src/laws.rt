// What is typed from the tokens of a text is lawful.

ghost use Rattle.lawful_typed.specs.Laws.{IntegersOfSourcesFit, NumbersOfTextsFit, SitesAreFew, TypedSourcesAreLawful};

/// Each number among the tokens of a text has 32 bits.
pub fn numbers_fit()
    ensures { NumbersOfTextsFit }
{}

/// Where each number among the tokens has 32 bits, so have the integers that objects start with.
pub fn integers_fit()
    ensures { IntegersOfSourcesFit }
{}

/// There are no more sites than tokens may be.
pub fn sites_are_few()
    ensures { SitesAreFew }
{}

/// A source without a fault that the tokens of a text spell is lawful.
pub fn typed_sources_are_lawful()
    ensures { TypedSourcesAreLawful }
{}
