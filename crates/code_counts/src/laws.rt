// How often emitted code writes Overflow by its own words, and how often these compare.

ghost use Rattle.code_counts.specs.Laws.{ComparisonsAreFew, OverflowIsKept};

/// Overflow is written once for each assignment to it, by a copy of the value.
pub fn overflow_is_kept()
    ensures { OverflowIsKept }
{}

/// At most four words compare for each construct of C that may compare.
pub fn comparisons_are_few()
    ensures { ComparisonsAreFew }
{}
