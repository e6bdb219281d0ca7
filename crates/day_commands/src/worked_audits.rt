//! The worked texts of the definitions. The proof computes them.

ghost use Rattle.day_commands.specs.WorkedAudits.{AreAuditTexts};

fn worked_texts()
    ensures { AreAuditTexts }
{}
