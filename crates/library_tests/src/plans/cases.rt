//! The snapshots of the tests, as texts.

/// Four floors 4000 mm apart, with a car at floor 0, where a person wants to go to floor 1.
pub(crate) const ONE_CALL: &str = "building 1
speed 2000
accel 1000
weights 1 1
floors 0 4000 8000 12000
car 1 8 1000 1000 500 500 all
end
snapshot 2
now 0
car 1 idle 0 0
call 1 0 1 1 0 any
end
";

/// Two persons wait at floor 0 for floor 1. One car stands there, and another comes there late with a group
/// for floor 1.
pub(crate) const TWO_CALLS: &str = "building 1
speed 2000
accel 1000
weights 1 1
floors 0 4000 8000 12000
car 1 8 1000 1000 500 500 all
car 2 8 1000 1000 500 500 all
end
snapshot 2
now 0
car 1 idle 0 0
car 2 coming 0 60000
aboard 2 3 1 2 0
call 1 0 1 1 0 any
call 2 0 1 1 0 any
end
";

/// A ms of waiting costs 3 and one of riding 2, and the first car lacks the top floor. Two cars stand, and
/// the third comes to floor 1 with a person for floor 3. Of the four calls the first two are of one queue, in
/// which the second one comes first; the third is pinned to the first car.
pub(crate) const FOUR_CALLS: &str = "building 1
speed 2000
accel 1000
weights 3 2
floors 0 4000 8000 12000
car 1 2 1000 1000 500 500 0 1 2
car 2 8 1000 1000 500 500 all
car 3 3 1000 1000 500 500 all
end
snapshot 2
now 1234
car 1 idle 2 2000
car 2 idle 0 1500
car 3 coming 1 4321
aboard 3 31 3 1 700
call 17 1 3 1 950 any
call 5 1 3 2 900 any
call 8 2 0 2 600 1
call 11 0 1 2 1100 any
end
";

/// Four uneven floors with a large car and a small one, whose doors and passengers take uneven times. The
/// large car stands with three persons for floor 0, and the small one comes there. Three calls are open.
pub(crate) const UNEVEN_PAIR: &str = "building 2
speed 1500
accel 800
weights 3 2
patience 2000 5
floors 0 3000 9000 10000
car 7 5 1100 700 300 900 all
car 8 3 800 500 400 600 all
end
snapshot 2
now 1000
car 7 idle 2 5000
car 8 coming 0 2500
aboard 7 30 0 3 400
call 5 1 3 2 900 any
call 2 1 3 1 950 any
call 9 2 0 1 400 any
end
";

/// A building whose car lacks the top floor, and a person aboard the car.
pub(crate) const LOW_CAR: &str = "building 1
speed 2000
accel 1000
weights 1 1
floors 0 4000 8000 12000
car 9 8 1000 1000 500 500 0 1 2
end
snapshot 2
now 5000
car 9 idle 0 5000
aboard 9 9 2 1 0
end
";
