//! The worked cases of the definitions. The proof computes them.

ghost use Rattle.elevator_model.specs.Worked.{AreCosts, AreBroken, ArePatient, ArePlans, AreFaults};
ghost use Rattle.elevator_model.specs.Worked.{AreBuildingFaults, AreStateFaults, AreGroupFaults};
ghost use Rattle.elevator_model.specs.Worked.{AreCallFaults, AreUneven, AreUnevenPlans, AreLowest, AreMoves};
ghost use Rattle.search_model.specs.WorkedOrders.{AreOrders, AreExtendable};
ghost use Rattle.search_model.specs.WorkedNodes.{AreSplits, AreTrees};
ghost use Rattle.search_model.specs.WorkedBounds.{AreValues, AreBounds, AreKept};
ghost use Rattle.search_model.specs.WorkedVerdicts.{AreVerdicts, AreClaims, AreEnough, AreUnevenVerdicts};
ghost use Rattle.search_model.specs.WorkedSolving.{AreFloors, AreTurns, AreRootWorths, AreTreeBounds};
ghost use Rattle.search_model.specs.WorkedDays.{AreAdvanced, AreMoving, IsDay, IsMovingDay, AreRows};
ghost use Rattle.search_model.specs.WorkedDays.{AreOpenings};
ghost use Rattle.search_model.specs.WorkedCases.{AreReports, AreDraws};
ghost use Rattle.half_plans.specs.WorkedHalves.{ArePairPlans, AreThirds};

/// Costs, moments, broken rules and first faults; the uneven ones where no two numbers are the same.
fn elevators()
    ensures costs { AreCosts }
    ensures broken_rules { AreBroken }
    ensures faults { AreFaults }
    ensures waits_past_patience { ArePatient }
    ensures plans { ArePlans }
    ensures building_faults { AreBuildingFaults }
    ensures state_faults { AreStateFaults }
    ensures group_faults { AreGroupFaults }
    ensures call_faults { AreCallFaults }
    ensures uneven_numbers { AreUneven }
    ensures plans_of_three_cars { AreUnevenPlans }
    ensures lowest_rules { AreLowest }
    ensures settled_by_moves { AreMoves }
{}

fn searches()
    ensures orders { AreOrders }
    ensures extendable { AreExtendable }
    ensures splits { AreSplits }
    ensures trees { AreTrees }
    ensures uneven_verdicts { AreUnevenVerdicts }
    ensures values { AreValues }
    ensures bounds { AreBounds }
    ensures kept { AreKept }
    ensures verdicts { AreVerdicts }
    ensures claims { AreClaims }
    ensures enough_limits { AreEnough }
    ensures floors { AreFloors }
    ensures turns { AreTurns }
    ensures root_worths { AreRootWorths }
    ensures tree_bounds { AreTreeBounds }
{}

fn days()
    ensures advanced { AreAdvanced }
    ensures moving { AreMoving }
    ensures whole_day { IsDay }
    ensures moving_day { IsMovingDay }
    ensures rows { AreRows }
    ensures openings { AreOpenings }
    ensures reports { AreReports }
    ensures draws { AreDraws }
{}

/// Pair plans with their shares, pairs that are none, and a mixture of thirds.
fn halves()
    ensures pair_plans { ArePairPlans }
    ensures thirds { AreThirds }
{}

#[test]
fn definitions_of_elevators_give_the_worked_cases() {
    elevators();
}

#[test]
fn definitions_of_searches_and_days_give_the_worked_cases() {
    searches();
    days();
    halves();
}
