//! Codes and words of faults.

use call_state::StateFault;
use elevator_model::Fault;
use std::alloc::Global;

#[test]
fn faults_have_their_codes(rt: HostRuntime) {
    for (fault, code) in [
        (Fault::OutOfRange, 7),
        (Fault::NotRising, 10),
        (Fault::IdUsedBefore, 11),
        (Fault::NoSuchFloor, 12),
        (Fault::OriginIsDestination, 13),
        (Fault::NoPossibleCar, 14),
        (Fault::PinCannotTake, 15),
        (Fault::WrongSide, 16),
        (Fault::OverCapacity, 17),
        (Fault::MomentOutOfRange, 18),
        (Fault::TooManyCalls, 19),
        (Fault::TooManyCars, 20),
        (Fault::NotServed, 21),
        (Fault::PersonsOutOfRange, 22),
        (Fault::NoTravelSquare, 28),
        (Fault::NoOpenFloor, 51),
    ] {
        assert!(rt; fault.code() == code);
    }
}

/// Whether the fault is told in these words.
fn is_told(alloc: Global, fault: StateFault, words: &str) -> bool {
    match format!(in alloc; "{fault}") {
        Ok(told) => told.as_str() == words,
        Err(_) => false,
    }
}

#[test]
fn faults_are_told_in_words(rt: HostRuntime) {
    let fault = Fault::NoSuchFloor;
    let told = "item 3: the building has no such floor";
    assert!(rt; is_told(rt.alloc(), StateFault::Bad { fault, item: 3 }, told));
    assert!(rt; is_told(rt.alloc(), StateFault::NoMemory, "out of memory"));
}
