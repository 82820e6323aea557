// What holds of the words of sites, of operands of any value.

ghost use Rattle.operator_lowering.specs.Laws.{SitesAreCourses, TemplatesHold};

/// The words of each site, in each form, with its guard and without, lead to its value or to its stop.
pub fn sites_are_courses()
    ensures { SitesAreCourses }
{}

/// The words of each site are a template of it, over any registers from x8 to x23.
pub fn templates_hold()
    ensures { TemplatesHold }
{}
