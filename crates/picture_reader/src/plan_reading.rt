//! Reads what is drawn of a plan.
ghost use Rattle.std.specs.Prelude.{◌≡◌, ◌≤◌, None, IfErr, IfOk, IsErrOf, OnOk, length};
ghost use Rattle.std.specs.Io.KnownBytes.{IsAtEnd};
ghost use Rattle.byte_streams.specs.Streams.{Rose};
ghost use Rattle.elevator_model.specs.Snapshot.{car_count};
ghost use Rattle.lift_text.specs.LineReader.{text, failure};
ghost use Rattle.lift_text.specs.Shows.{FaultShows};
ghost use Rattle.picture_reader.specs.PlanScenes.{answer_telling, plan_shown, plan_telling};
ghost use Rattle.picture_reader.specs.Tellings.{IsAnsweredBy, IsSceneOf};

use crate::plan_tours::plan_legs;
use answer_text::read_answer;
use call_state::Snapshot;
use case_text::{read_case, read_end};
use elevator_model::most_cars;
use lift_picture::{Axis, Scene};
use lift_text::{LineReader, Source, TextFault};
use search_model::Stated;
use std::alloc::{AllocError, Global};

/// What is drawn of the plan of an answer.
fn scene_of(alloc: Global, snapshot: &Snapshot, stated: &Stated) -> Result<Scene, AllocError>
    requires { length stated.now.plan ≡ car_count snapshot.now }
    ensures scene { IfOk result (IsSceneOf (plan_shown snapshot.now stated.now)) }
    ensures few { IfOk result (λ scene. length scene.cars.items ≤ 16) }
{
    let building = snapshot.building();
    // For the proof: a building has at most 16 cars.
    let _most = most_cars(building.version());
    let legs = plan_legs(alloc, snapshot, &stated.plan)?;
    let cars = building.cars().iter().map(|car| car.id).collect(alloc)?;
    Ok(Scene {
        axis: Axis::Stops,
        floors: building.heights().len() as u32,
        start: 0,
        cars,
        legs,
        refusals: Vec::new(alloc),
    })
}

/// Reads an answer, and the text to its end.
fn read_plan<S: Source>(
    alloc: Global,
    lines: &mut LineReader<S>,
    snapshot: &Snapshot,
) -> Result<Scene, TextFault>
    requires { failure lines.old ≡ None }
    ensures same_source { lines.new.source.ghost_name ≡ lines.old.source.ghost_name }
    ensures answer { IsAnsweredBy (answer_telling snapshot.now) (text S.left lines.old) result }
    ensures few { IfOk result (λ scene. length scene.cars.items ≤ 16) }
    ensures ended { OnOk result (IsAtEnd (S.left lines.new.source.now)) }
    ensures shows { IfErr result (λ fault.
        FaultShows (text S.left lines.old) fault (S.left lines.new.source.now)) }
    ensures read { IsErrOf result TextFault.Read
        → Rose (S.faults lines.old.source.now) (S.faults lines.new.source.now) }
    ensures counted { S.faults lines.old.source.now ≤ S.faults lines.new.source.now }
{
    let stated = match read_answer(alloc, lines, snapshot) {
        Ok(stated) => stated,
        Err(fault) => return Err(fault),
    };
    match read_end(lines) {
        Ok(()) => match scene_of(alloc, snapshot, &stated) {
            Ok(scene) => Ok(scene),
            Err(_) => Err(TextFault::NoMemory),
        },
        Err(fault) => Err(fault),
    }
}

/// Reads a building, a snapshot and an answer to it up to the end of the text, and gives what is drawn of the
/// plan. The allocator comes first.
///
/// The first bad line decides, with its number and one code: those of `read_case` and of `read_answer`, and
/// `OutOfOrder` for a line behind the answer. The end of the bad line shows in the bytes that were taken. `Read`
/// comes only where a read of the source failed.
pub fn read_plan_scene<S: Source>(
    alloc: Global,
    lines: &mut LineReader<S>,
) -> Result<Scene, TextFault>
    requires { failure lines.old ≡ None }
    ensures same_source { lines.new.source.ghost_name ≡ lines.old.source.ghost_name }
    ensures scene { IsAnsweredBy plan_telling (text S.left lines.old) result }
    ensures few { IfOk result (λ scene. length scene.cars.items ≤ 16) }
    ensures ended { OnOk result (IsAtEnd (S.left lines.new.source.now)) }
    ensures shows { IfErr result (λ fault.
        FaultShows (text S.left lines.old) fault (S.left lines.new.source.now)) }
    ensures read { IsErrOf result TextFault.Read
        → Rose (S.faults lines.old.source.now) (S.faults lines.new.source.now) }
    ensures counted { S.faults lines.old.source.now ≤ S.faults lines.new.source.now }
{
    match read_case(alloc, lines) {
        Ok(snapshot) => read_plan(alloc, lines, &snapshot),
        Err(fault) => Err(fault),
    }
}
