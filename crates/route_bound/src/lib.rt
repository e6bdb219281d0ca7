//! The bound of a partial tour along its forced route.
//!
//! Values and bounds are in thousandths of a cost unit. Cars and calls are named by their index.
//!
//! # What is promised
//!
//! For every accepted snapshot:
//!
//! - `route_law`: the bound (`specs/ForcedRoute.antt`) is at most the value of each feasible tour that begins
//!   with the partial tour, boards the required calls, and allowed ones only.
//! - `ended_route_law`: after the end it is the value of the tour.
//! - `turns_law`: the same with what turns add (`specs/Turns.antt`), for any list of calls that begin away
//!   from the route's floors, are of different queues, and stand by gains that fall. Which calls are listed
//!   is free, so a search may leave some out.
//! - `growing_law`: a move makes no call board sooner along the route, where some tour goes on after it
//!   (`specs/GrowingRoute.antt`). So a call that adds nothing need not be looked at after later moves.
//!
//! `specs/WorkedRoutes.antt` has worked cases: routes, the moments along them, and bounds.
//!
//! # Why it is never too high
//!
//! A car cannot turn with passengers, so the destinations of those carried are stops of every completion, by
//! their distance. Any completion is compared with the route that makes these stops alone
//! (`specs/OnRoute.antt`): as long as a forced stop is ahead, the car is between it and the one before, and
//! can be nowhere sooner than the route could. So its doors are open at no floor before the moment that the
//! route tells (`specs/RouteTimes.antt`): those carried get off no sooner, and no call boards sooner. A call
//! that goes the other way cannot board while someone is carried, since the next leg would turn with one of
//! the two. From there each rider is compared with what the tour makes of it (`specs/LowerRoute.antt`).
//!
//! # Why turns may be added
//!
//! Calls of two queues do not board at one stop: from one floor they would go both ways. Each stop that is
//! none of the route makes the car later by its doors and the way over its floor, wherever it goes next
//! (`specs/Slack.antt`). So the k-th listed call that boards has waited for k - 1 stops
//! (`specs/TurnTimes.antt`, `specs/TurnsTaken.antt`), one that does not board loses its gain, and by gains
//! that fall the sum of the lesser of gain and wait is the least that any order of boarding makes it
//! (`specs/TurnSums.antt`).
//!
//! All lemmas are in `specs/`, so that a ghost member of an instance may cite the laws.
#![tactic(auto)]

ghost use Rattle.route_bound.specs.ForcedRoute.{EndedRouteLaw, RouteLaw};
ghost use Rattle.route_bound.specs.GrowingRoute.{GrowingLaw};
ghost use Rattle.route_bound.specs.Turns.{TurnsLaw, floors_of_route};

/// A law: the bound along the forced route is at most the value of each feasible tour that begins with the
/// partial tour, boards each required call, and allowed calls only.
pub fn route_law()
    ensures { RouteLaw }
{}

/// A law: of a partial tour that has ended the bound is the value of its tour.
pub fn ended_route_law()
    ensures { EndedRouteLaw }
{}

/// A law: the bound holds, too, with what calls add that take turns, away from the floors of the route.
pub fn turns_law()
    ensures { TurnsLaw floors_of_route }
{}

/// A law: a move makes no call board sooner, where some tour goes on after it.
pub fn growing_law()
    ensures { GrowingLaw }
{}
