//! The ids of calls and cars, as texts have them.
ghost use Rattle.std.specs.Prelude.{◌≡◌};
ghost use Rattle.elevator_model.specs.Snapshot.{call_of, spec_of};

use call_state::Snapshot;

/// The id of a call, or 0 where there is no such call.
pub fn id_of_call(snapshot: &Snapshot, call: u32) -> u64
    ensures { result ≡ (call_of snapshot.now call).id }
{
    match snapshot.calls().get(call as usize) {
        Some(call) => u64::from(call.id),
        None => 0,
    }
}

/// The id of a car, or 0 where there is no such car.
pub fn id_of_car(snapshot: &Snapshot, car: u32) -> u64
    ensures { result ≡ (spec_of snapshot.now car).id }
{
    match snapshot.building().cars().get(car as usize) {
        Some(spec) => u64::from(spec.id),
        None => 0,
    }
}
