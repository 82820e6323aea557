// Lines of what is lawful of a tree, of its `main` and its relational constants.

ghost use Rattle.ir_mains.specs.Laws.{ConstantsStand, HasMain, MainIsMain};

/// There is a definition of main.
pub fn has_main()
    ensures { HasMain }
{}

/// The function of the number of main is called main.
pub fn main_is_main()
    ensures { MainIsMain }
{}

/// The relational constants are those that stand in the tree, each once, in the order of the text.
pub fn constants_stand()
    ensures { ConstantsStand }
{}
