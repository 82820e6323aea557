// The template of a site.

ghost use Rattle.std.specs.Prelude.{◌≡◌, ◌≤◌, map, length};
ghost use Rattle.rv_encode.specs.Words.{encoded};
ghost use Rattle.operator_lowering.specs.Laws.{IsFormOf};
ghost use Rattle.operator_lowering.specs.Registers.{AreRegistersOf, places_of};
ghost use Rattle.operator_lowering.specs.Template.{TemplateHolds};
ghost use Rattle.operator_lowering.specs.Words.{template_words};

use crate::site_registers::Regs;
use crate::way::way_of;
use crate::words::Words;
use operator_meaning::{Form, Guard, SiteKind};

/// The words of a site, of this kind and number, in a form, with its guard or without, over its registers. They do what
/// the site does: in x8 to x23 they write the register of the result alone, besides x10 and x17 where a call is made, and
/// between they may write x5 to x7 and x28 to x31. Takes no memory.
pub fn template(kind: SiteKind, form: Form, guard: Guard, site: u32, regs: &Regs) -> Words
    requires registers { AreRegistersOf kind regs.now }
    requires form { IsFormOf kind form }
    ensures words { result ≡ map encoded (template_words kind form guard site (places_of regs.now)) }
    ensures holds { TemplateHolds kind form guard site (places_of regs.now) (template_words kind form guard site (places_of regs.now)) }
    ensures short { length result ≤ 96 }
{
    let places = regs.places();
    let way = way_of(kind, form, guard);
    let mut words = Words::begun(way, places);
    words.put_site(way.places(places), kind, (form, guard), site);
    words
}
