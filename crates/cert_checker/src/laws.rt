//! What a verdict says.

ghost use Rattle.search_model.specs.Verdicts.{VerdictLaw};
ghost use Rattle.cert_checker.specs.Laws.{SufficientLaw, YesLaw};

/// Laws of the verdict of a plan with one tour per car and one whole tree.
///
/// It is yes exactly where the tree proves the plan, its cost and the bound, and no kept list of a leaf is
/// longer than its claim. With sufficient claims no list is, so it is yes exactly where the tree proves them.
/// And a yes says that the plan is feasible and has this cost, and that no feasible plan costs less than the
/// bound.
pub fn verdict_laws()
    ensures exact { VerdictLaw }
    ensures sufficient { SufficientLaw }
    ensures yes { YesLaw }
{}
