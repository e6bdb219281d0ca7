//! What holds of every day.

ghost use Rattle.day_laws.specs.Laws.{DayLaw};

/// Over any rows with feasible plans no accepted call is lost: each is open, aboard one car or delivered, and
/// once the last plan is run to its end each is delivered. By the events of the log each boards once, not
/// before its release, and is delivered once, not before it boards.
pub fn day_laws()
    ensures { DayLaw }
{}
