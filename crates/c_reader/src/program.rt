// Reads whole sources (C90, 6.7).

ghost use Rattle.std.specs.Prelude.{◌≤◌, length, All, IfOk, IfErr};
ghost use Rattle.sat_base.specs.declared.limits.TheConstants.{DEPTH, TOKENS};
ghost use Rattle.c_lexer.specs.Spans.{LiesIn};
ghost use Rattle.c_tree.specs.Depth.{depth_of};
ghost use Rattle.c_grammar.specs.Programs.{Spells, IsRefused};

use c_grammar::{ReadRefusal, spots};
use c_lexer::Tokens;
use c_parser::parsed;
use c_tree::Program;
use sat_base::limits::DEPTH;
use std::alloc::Global;

/// The tree that the tokens spell, which are at most 131,072 and lie in their text. Tokens that spell none whose
/// depth is at most 64 are refused: at a token with which they begin no source, where a front of some tree spells
/// those before it, or at one with which they begin no source whose tree is within the depth.
pub fn read(alloc: Global, tokens: &Tokens) -> Result<Program, ReadRefusal>
    requires few { length tokens.now.list ≤ TOKENS }
    requires within { All (LiesIn tokens.now.text) tokens.now.list }
    ensures tree { IfOk result (λ program. Spells program tokens.now) }
    ensures shallow { IfOk result (λ program. depth_of program ≤ DEPTH) }
    ensures refused { IfErr result (IsRefused tokens.now) }
{
    let spots = spots(alloc, tokens)?;
    let items = parsed(alloc, spots.as_slice(), DEPTH as u32)?;
    Ok(Program {
        items,
        end_tok: tokens.list.len() as u32,
        end: tokens.end,
    })
}
