// Of which pieces emitted code is made.

ghost use Rattle.code_entries.specs.Laws.{CodesAreMade, SitesAreMade};

/// The code of a program is made of words of its own and of the templates of sites, in the order of their evaluation.
pub fn codes_are_made()
    ensures { CodesAreMade }
{}

/// Where the body is one over scalars, each site that stands in it has its template once.
pub fn sites_are_made()
    ensures { SitesAreMade }
{}
