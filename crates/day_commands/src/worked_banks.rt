//! The worked texts of the definitions. The proof computes them.

ghost use Rattle.day_commands.specs.WorkedBanks.{AreBanksTexts};

fn worked_texts()
    ensures { AreBanksTexts }
{}
