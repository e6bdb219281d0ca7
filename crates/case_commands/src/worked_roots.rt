//! The worked texts of the definitions. The proof computes them.

ghost use Rattle.case_commands.specs.WorkedRoots.{AreRootTexts};

fn worked_texts()
    ensures { AreRootTexts }
{}
