// Which sites stand in the bodies of a lawful tree, as those look through them that emit code.

ghost use Rattle.code_sites.specs.Laws.{BodiesHaveOperands, BodiesHaveRows};
ghost use Rattle.code_sites.specs.Laws.{BodiesHaveSites, SitesAreNumbered};

/// In the body of a function of a lawful tree, what may be missing is there once at most, and what
/// starts is an object of its block.
pub fn bodies_have_rows()
    ensures { BodiesHaveRows }
{}

/// In the body of a function of a lawful tree, each site has as many operands as it takes.
pub fn bodies_have_operands()
    ensures { BodiesHaveOperands }
{}

/// In the body of a function of a lawful tree, each site is one of the tree's own, of the kind that
/// its list gives.
pub fn bodies_have_sites()
    ensures { BodiesHaveSites }
{}

/// The sites in the bodies of a lawful tree are its own, each of them once, and each of the kind that
/// its list gives.
pub fn sites_are_numbered()
    ensures { SitesAreNumbered }
{}
