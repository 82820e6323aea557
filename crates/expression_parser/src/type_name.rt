// Reads types (C90, 6.5.2).

ghost use Rattle.right_reading.specs.ReadExpressions.{type_at};
ghost use Rattle.token_reader.specs.Gives.{Gives};

use c_grammar::{ReadRefusal, Symbol, width_of};
use sat_base::{At, Width};
use token_reader::Reader;

/// A type: its first token and its width (C90, 6.5.2).
#[tactic(auto, unfolding(right_reading::specs::ReadExpressions::type_at))]
pub fn type_(reader: &mut Reader<'_>) -> Result<(At, Width), ReadRefusal>
    ensures { Gives (type_at reader.old) result reader.new }
{
    let symbol = reader.ahead();
    let Some(width) = width_of(symbol) else {
        return Err(reader.syntax());
    };
    let at = reader.pass();
    if symbol.is(Symbol::Short) || symbol.is(Symbol::Long) {
        reader.pass_if(Symbol::IntWord);
    }
    Ok((at, width))
}
