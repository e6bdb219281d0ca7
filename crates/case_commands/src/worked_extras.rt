//! The worked texts of the definitions. The proof computes them.

ghost use Rattle.case_commands.specs.WorkedExtras.{AreWhatIfTexts};

fn worked_texts()
    ensures { AreWhatIfTexts }
{}
