// Reads what stands at the front of declarations (C90, 6.5.1 to 6.5.3).

ghost use Rattle.std.specs.Prelude.{◌≡◌};
ghost use Rattle.right_reading.specs.ReadDeclarations.{qualifiers_at, specifiers_at};
ghost use Rattle.token_reader.specs.Gives.{Gives};

use c_grammar::{ReadRefusal, Symbol};
use expression_parser::type_;
use right_reading::{Qualifiers, Specifiers};
use token_reader::Reader;

/// `static` and `const`, each or neither, in either order.
#[tactic(auto, unfolding(right_reading::specs::ReadDeclarations::qualifiers_at))]
pub fn qualifiers(reader: &mut Reader<'_>) -> Qualifiers
    ensures value { result ≡ (qualifiers_at reader.old).0 }
    ensures rest { reader.new ≡ (qualifiers_at reader.old).1 }
{
    let at = reader.here();
    let is_first = reader.pass_if(Symbol::Static);
    let is_const = reader.pass_if(Symbol::Const);
    let is_second = is_const && !is_first && reader.pass_if(Symbol::Static);
    Qualifiers {
        at,
        is_static: is_first || is_second,
        is_const,
    }
}

/// The qualifiers and the type of objects.
#[tactic(auto, unfolding(right_reading::specs::ReadDeclarations::specifiers_at))]
pub(crate) fn specifiers(reader: &mut Reader<'_>) -> Result<Specifiers, ReadRefusal>
    ensures { Gives (specifiers_at reader.old) result reader.new }
{
    let quals = qualifiers(reader);
    let (_, width) = type_(reader)?;
    Ok(Specifiers { quals, width })
}
