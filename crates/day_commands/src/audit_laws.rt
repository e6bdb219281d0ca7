//! What holds of every audit.

ghost use Rattle.day_commands.specs.OneText.{OneEndLaw, OneTextLaw};

/// One status and one text are due for an input, so two calls that fail in nothing and have memory end with
/// the same status and write the same text.
pub fn text_laws()
    ensures one { OneTextLaw }
    ensures ends { OneEndLaw }
{}
