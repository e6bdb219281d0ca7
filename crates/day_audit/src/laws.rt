//! What holds of every answer.

ghost use Rattle.day_audit.specs.OneAnswer.{BadLineLaw, OneAnswerLaw};
ghost use Rattle.day_audit.specs.ProvedDays.{OneRunLaw};

/// An input has one answer, but for a failed read and running out of memory: that its log holds, with its numbers, or
/// what is found first; where the input is too long, that bad line which is found first, if there is one, and
/// else that it is too long. A log is that of one run of its rows, so a yes is about the plans in the log and
/// about no others.
pub fn answer_laws()
    ensures one { OneAnswerLaw }
    ensures bad { BadLineLaw }
    ensures run { OneRunLaw }
{}
