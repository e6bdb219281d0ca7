//! Laws of plans, answers and texts that come one after the other.

ghost use Rattle.check_text.specs.Laws.{AgainLaw, AppendLaw, ByIndexLaw, StatedTextLaw};

/// Laws of a case, a plan of it and their texts.
///
/// A feasible plan with the boards of each stop by rising index is feasible, and costs the same. A feasible
/// plan of a case, with its cost and a bound that is not above it, has a text of at most 200,000 bytes. If
/// more comes after the text of a case, ended by a line feed, the whole begins with that case; and where that
/// is the text of an answer, that of a certificate and a comment line, the whole is read as these.
pub fn text_laws()
    ensures by_index { ByIndexLaw }
    ensures stated { StatedTextLaw }
    ensures append { AppendLaw }
    ensures again { AgainLaw }
{}
