// Lines of what is lawful that hold of every source that tokens spell.

ghost use Rattle.lawful_texts.specs.Laws.{ConstantsStand, DefinitionsDiffer, SitesHaveOwnTokens, TextsAreSpelled};

/// In a source without a fault each array has an element, and no `&` stands before `*`.
pub fn texts_are_spelled()
    ensures { TextsAreSpelled }
{}

/// No two sites have one token.
pub fn sites_have_own_tokens()
    ensures { SitesHaveOwnTokens }
{}

/// The names in no two definitions stand at one token.
pub fn definitions_differ()
    ensures { DefinitionsDiffer }
{}

/// The relational constants of a source without a fault are those that stand in its definitions,
/// each once, in the order of the text.
pub fn constants_stand()
    ensures { ConstantsStand }
{}
