// What holds of runs of templates, of instructions of any number and registers of any site.

ghost use Rattle.template_runs.specs.Copies.{AddsCopy};
ghost use Rattle.template_runs.specs.Fitting.{FieldsFit};
ghost use Rattle.template_runs.specs.Machine.{CoursesAreRuns};
ghost use Rattle.template_runs.specs.Plainness.{PlainStay};

/// Where the course of a template ends, the machine comes, over the registers of any site.
pub fn courses_are_runs()
    ensures { CoursesAreRuns }
{}

/// Instructions that are fit in a template are fit over the registers of any site.
pub fn fields_fit()
    ensures { FieldsFit }
{}

/// An ADDI of 0 copies a register, and changes nothing else.
pub fn adds_copy()
    ensures { AddsCopy }
{}

/// Instructions of a template that compare nothing compare nothing over the registers of any site.
pub fn plain_stay()
    ensures { PlainStay }
{}
