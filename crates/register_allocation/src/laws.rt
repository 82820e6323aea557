// What follows from the definitions alone.

ghost use Rattle.ir_arena.specs.Tree.{IrWhole};
ghost use Rattle.register_allocation.specs.declared.home.Assign.{Assign};
ghost use Rattle.register_allocation.specs.Good.{IsGoodAssignment};
ghost use Rattle.register_allocation.specs.Laws.{EachHasHome, AreExamples};

/// Which variables are live and which conflict, in small trees.
pub fn examples()
    ensures { AreExamples }
{}

/// In a good assignment each tracked variable and each view of a function has a home.
pub fn each_has_home()
    ensures { (tree : IrWhole) (assign : Assign) → IsGoodAssignment tree assign
        → EachHasHome tree assign.functions }
{}
