// Lines of what is lawful about the sites of a source without a fault.

ghost use Rattle.lawful_sites.specs.Laws.{KindsAgree, MarksAreNumbered, SitesStandOnce};

/// Where no two sites have one token, a mark has a site exactly where it is one, and that is the
/// site of its own token.
pub fn marks_are_numbered()
    ensures { MarksAreNumbered }
{}

/// Each site stands once in the source.
pub fn sites_stand_once()
    ensures { SitesStandOnce }
{}

/// Where an array has an element and no two sites have one token, the kind that the site list gives
/// is that of the mark.
pub fn kinds_agree()
    ensures { KindsAgree }
{}
