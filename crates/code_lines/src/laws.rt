// What lines of code do, and which sites are entered.

ghost use Rattle.code_lines.specs.Lines.{LinesRun};
ghost use Rattle.code_lines.specs.Leading.{SitesAreEntered};
ghost use Rattle.code_lines.specs.Pieces.{NumbersAreMade, CountsAreAdded};

/// The machine comes from the first word of a line to the place after its last, with the values that the line computes in
/// its registers; memory, input and output are as before.
pub fn lines_run()
    ensures { LinesRun }
{}

/// One or two words make any number of 32 bits.
pub fn numbers_are_made()
    ensures { NumbersAreMade }
{}

/// A weight is added to the count of 64 bits, with the carry between its halves.
pub fn counts_are_added()
    ensures { CountsAreAdded }
{}

/// The machine enters a site once where it comes by the words of the site, if that has any.
pub fn sites_are_entered()
    ensures { SitesAreEntered }
{}
