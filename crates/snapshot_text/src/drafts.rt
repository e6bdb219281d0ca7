//! A snapshot section, as far as it was read.
ghost use Rattle.std.specs.Prelude.{◌≡◌, ◌<◌, ◌++◌, ◌∷◌, [], ℕ, false, length, map, slice_index, Ok, IfOk};
ghost use Rattle.std.specs.Prelude.{IfSome, OnErr, OnOk};
ghost use Rattle.elevator_model.specs.declared.CarSpec.{CarSpec};
ghost use Rattle.elevator_model.specs.Building.{IsBuilding};
ghost use Rattle.elevator_model.specs.Snapshot.{no_state};
ghost use Rattle.lift_text.specs.LineReader.{words};
ghost use Rattle.text_sections.specs.Sections.{Did};

use crate::kinds::{Due, LineWord};
use crate::said::{call_said, car_said, form_of, group_said, moment_said, version_said};
use call_state::{
    Aboard, Building, Call, CarSpec, CarState, Fault, IdIndex, SnapshotParts, indexed_aboard_fault,
    indexed_call_fault, state_fault,
};
use lift_text::{LineReader, Source, TextCode};
use std::alloc::{AllocError, Global};
use std::marker::Model;
use text_sections::{AfterLine, LineFault, Section, exactly, is_word};

/// A state for each car, which counts for nothing yet.
fn unknown_states(alloc: Global, cars: &[CarSpec]) -> Result<Vec<CarState>, AllocError>
    ensures { IfOk result (λ states. states.items ≡ map (λ (x : CarSpec). no_state) cars.now) }
{
    let nowhere = CarState::Idle { floor: 0, free: 0 };
    cars.iter().map(|_| nowhere).collect(alloc)
}

/// That no line has said where a car is.
fn nothing_stated(alloc: Global, cars: &[CarSpec]) -> Result<Vec<bool>, AllocError>
    ensures { IfOk result (λ stated. stated.items ≡ map (λ (x : CarSpec). false) cars.now) }
{
    cars.iter().map(|_| false).collect(alloc)
}

/// A state for each car, which counts for nothing yet, and that no line has said where it is.
fn nowhere_yet(alloc: Global, cars: &[CarSpec]) -> Result<(Vec<CarState>, Vec<bool>), AllocError>
    ensures states { IfOk result (λ made. made.0.items ≡ map (λ (x : CarSpec). no_state) cars.now) }
    ensures stated { IfOk result (λ made. made.1.items ≡ map (λ (x : CarSpec). false) cars.now) }
{
    let states = unknown_states(alloc, cars)?;
    let stated = nothing_stated(alloc, cars)?;
    Ok((states, stated))
}

/// Puts an item after the others, and its id after theirs. It fails only where there is no memory left:
/// then both are as before.
fn add_indexed<T: Copy>(
    items: &mut Vec<T>,
    ids: &mut IdIndex,
    item: T,
    id: u32,
) -> Result<(), AllocError>
    requires { (k : ℕ) → k < length ids.old → slice_index ids.old k ≡ id → ⊥ }
    ensures added { OnOk result (items.new.items ≡ items.old.items ++ item ∷ []) }
    ensures indexed { OnOk result (ids.new ≡ ids.old ++ id ∷ []) }
    ensures as_before { OnErr result (items.new.items ≡ items.old.items) }
    ensures ids_as_before { OnErr result (ids.new ≡ ids.old) }
{
    items.reserve(1)?;
    ids.push(id)?;
    items.push_reserved(item);
    Ok(())
}

/// What was read of a snapshot section.
#[derive(Drop)]
pub(crate) struct Draft {
    /// The opening snapshot of a day, where nobody is aboard and no call is open.
    is_opening: bool,
    building: Building,
    due: Due,
    version: u8,
    moment: u64,
    /// Where each car is, in the building's order: it counts where a line has said so.
    states: Vec<CarState>,
    /// Whether a line has said where each car is.
    stated: Vec<bool>,
    aboard: Vec<Aboard>,
    calls: Vec<Call>,
    /// The ids of the groups and of the calls, so that a line looks none through.
    group_ids: IdIndex,
    call_ids: IdIndex,
}

impl Model for Draft {
    ghost use Rattle.std.specs.Prelude.{◌≡◌, length, map};
    ghost use Rattle.elevator_model.specs.declared.Aboard.{Aboard};
    ghost use Rattle.elevator_model.specs.declared.Call.{Call};
    ghost use Rattle.snapshot_text.specs.Drafts.{Draft as Record};

    ghost Value = { Record };

    ghost view = { λ d. record {
      is_opening = d.is_opening;
      building = d.building;
      due = d.due;
      version = d.version;
      moment = d.moment;
      states = d.states.items;
      stated = d.stated.items;
      aboard = d.aboard.items;
      calls = d.calls.items;
    } };

    ghost invariant = { λ d. (length d.states.items ≡ length d.building.cars)
        × (length d.stated.items ≡ length d.building.cars)
        × (d.group_ids ≡ map (λ (x : Aboard). x.id) d.aboard.items)
        × (d.call_ids ≡ map (λ (x : Call). x.id) d.calls.items) };
}

impl Draft {
    ghost use Rattle.snapshot_text.specs.Drafts.{blank, snapshot_read, has_car, has_all_cars, cars_in_order};
    ghost use Rattle.snapshot_text.specs.Drafts.{groups_in_order, calls_in_order, outside_opening};
    ghost use Rattle.snapshot_text.specs.Drafts.{with_all_cars, version_in, moment_in, car_in, group_in};
    ghost use Rattle.snapshot_text.specs.Drafts.{call_in, end_in, fault_in_car, after_word, line_word};
    ghost use Rattle.snapshot_text.specs.Drafts.{any_word};
    ghost use Rattle.snapshot_text.specs.declared.kinds.LineWord.TheVariants.{Snapshot, Now, Car};
    ghost use Rattle.snapshot_text.specs.declared.kinds.LineWord.TheVariants.{Aboard as AboardWord};
    ghost use Rattle.snapshot_text.specs.declared.kinds.LineWord.TheVariants.{Call as CallWord, End};
    ghost use Rattle.call_state.specs.SnapshotParts.{snapshot_of};

    /// A section of which no line was read.
    pub(crate) fn new(
        alloc: Global,
        building: Building,
        is_opening: bool,
    ) -> Result<Draft, AllocError>
        ensures value { IfOk result (λ draft. draft ≡ blank building is_opening) }
        ensures building { OnOk result (IsBuilding building) }
    {
        let (states, stated) = nowhere_yet(alloc, building.cars())?;
        Ok(Draft {
            is_opening,
            building,
            due: Due::Version,
            version: 1,
            moment: 0,
            states,
            stated,
            aboard: Vec::new(alloc),
            calls: Vec::new(alloc),
            group_ids: IdIndex::new(alloc),
            call_ids: IdIndex::new(alloc),
        })
    }

    /// The parts of the snapshot that was read.
    pub(crate) fn into_parts(self) -> SnapshotParts
        ensures { snapshot_of result ≡ snapshot_read self }
    {
        SnapshotParts {
            version: self.version,
            building: self.building,
            now: self.moment,
            cars: self.states,
            aboard: self.aboard,
            calls: self.calls,
        }
    }

    /// Whether a line has said where some car is.
    fn has_car(&self) -> bool
        ensures { result ≡ has_car self.now }
    {
        self.stated.iter().any(|is| *is)
    }

    /// Whether a line has said where each car is.
    fn has_all_cars(&self) -> bool
        ensures { result ≡ has_all_cars self.now }
    {
        self.stated.iter().all(|is| *is)
    }

    /// Lines of cars may come.
    fn cars_in_order(&self) -> Result<(), TextCode>
        ensures { result ≡ cars_in_order self.now }
    {
        if matches!(self.due, Due::Items) && self.aboard.len() == 0 && self.calls.len() == 0 {
            return Ok(());
        }
        Err(TextCode::OutOfOrder)
    }

    /// Lines of groups may come.
    fn groups_in_order(&self) -> Result<(), TextCode>
        ensures { result ≡ groups_in_order self.now }
    {
        if matches!(self.due, Due::Items) && self.has_car() && self.calls.len() == 0 {
            return Ok(());
        }
        Err(TextCode::OutOfOrder)
    }

    /// Lines of calls and the last line may come.
    fn calls_in_order(&self) -> Result<(), TextCode>
        ensures { result ≡ calls_in_order self.now }
    {
        if matches!(self.due, Due::Items) && self.has_car() {
            return Ok(());
        }
        Err(TextCode::OutOfOrder)
    }

    fn outside_opening(&self) -> Result<(), TextCode>
        ensures { result ≡ outside_opening self.now }
    {
        if self.is_opening {
            return Err(TextCode::NotInOpening);
        }
        Ok(())
    }

    fn with_all_cars(&self) -> Result<(), TextCode>
        ensures { result ≡ with_all_cars self.now }
    {
        if self.has_all_cars() {
            return Ok(());
        }
        Err(TextCode::NoState)
    }

    /// The version that the line says here.
    fn version_in<S: Source>(&self, lines: &LineReader<S>) -> Result<u8, TextCode>
        ensures { result ≡ version_in self.now (words lines.now) }
    {
        if !matches!(self.due, Due::Version) {
            return Err(TextCode::OutOfOrder);
        }
        version_said(lines)
    }

    /// The moment that the line says here.
    fn moment_in<S: Source>(&self, lines: &LineReader<S>) -> Result<u64, TextCode>
        ensures { result ≡ moment_in self.now (words lines.now) }
    {
        if !matches!(self.due, Due::Moment) {
            return Err(TextCode::OutOfOrder);
        }
        moment_said(lines)
    }

    /// The index and the state of the car that the line says here.
    fn car_in<S: Source>(&self, lines: &LineReader<S>) -> Result<(u32, CarState), TextCode>
        ensures value { result ≡ car_in self.now (words lines.now) }
        ensures car { IfOk result (λ said. said.0 < length self.now.building.cars) }
    {
        let form = form_of(self.version, lines)?;
        self.cars_in_order()?;
        car_said(&self.building, form, lines)
    }

    /// The group that the line says here.
    fn group_in<S: Source>(&self, lines: &LineReader<S>) -> Result<Aboard, TextCode>
        ensures value { result ≡ group_in self.now (words lines.now) }
        ensures car { IfOk result (λ group. group.car < length self.now.building.cars) }
    {
        self.groups_in_order()?;
        self.outside_opening()?;
        let group = group_said(&self.building, lines)?;
        self.with_all_cars()?;
        Ok(group)
    }

    /// The call that the line says here.
    fn call_in<S: Source>(&self, lines: &LineReader<S>) -> Result<Call, TextCode>
        ensures value { result ≡ call_in self.now (words lines.now) }
        ensures car { IfOk result (λ call. IfSome call.pin (λ c. c < length self.now.building.cars)) }
    {
        self.calls_in_order()?;
        self.outside_opening()?;
        let call = call_said(&self.building, lines)?;
        self.with_all_cars()?;
        Ok(call)
    }

    /// Whether the section may end here.
    fn end_in<S: Source>(&self, lines: &LineReader<S>) -> Result<AfterLine, TextCode>
        ensures { result ≡ end_in self.now (words lines.now) }
    {
        self.calls_in_order()?;
        exactly(lines, 1)?;
        self.with_all_cars()?;
        Ok(AfterLine::Whole)
    }

    /// What is wrong with the state of a car that a line says.
    fn car_fault(&self, car: u32, state: CarState) -> Option<Fault>
        requires { car < length self.now.building.cars }
        ensures { result ≡ fault_in_car self.now (car, state) }
    {
        if self.stated[car as usize] {
            return Some(Fault::IdUsedBefore);
        }
        state_fault(&self.building, self.moment, car, state)
    }

    fn take_version<S: Source>(&mut self, lines: &LineReader<S>) -> Result<AfterLine, LineFault>
        ensures { Did (after_word Snapshot self.old (words lines.now)) result self.new }
    {
        self.version = self.version_in(lines)?;
        self.due = Due::Moment;
        Ok(AfterLine::More)
    }

    fn take_moment<S: Source>(&mut self, lines: &LineReader<S>) -> Result<AfterLine, LineFault>
        ensures { Did (after_word Now self.old (words lines.now)) result self.new }
    {
        self.moment = self.moment_in(lines)?;
        self.due = Due::Items;
        Ok(AfterLine::More)
    }

    fn take_car<S: Source>(&mut self, lines: &LineReader<S>) -> Result<AfterLine, LineFault>
        ensures { Did (after_word Car self.old (words lines.now)) result self.new }
    {
        let (car, state) = self.car_in(lines)?;
        if let Some(fault) = self.car_fault(car, state) {
            return Err(LineFault::Bad(TextCode::Item(fault)));
        }
        self.states[car as usize] = state;
        self.stated[car as usize] = true;
        Ok(AfterLine::More)
    }

    fn take_group<S: Source>(&mut self, lines: &LineReader<S>) -> Result<AfterLine, LineFault>
        ensures { Did (after_word AboardWord self.old (words lines.now)) result self.new }
    {
        let group = self.group_in(lines)?;
        let fault = indexed_aboard_fault(
            &self.building,
            self.moment,
            &self.states,
            &self.aboard,
            &self.group_ids,
            &group,
        );
        if let Some(fault) = fault {
            return Err(LineFault::Bad(TextCode::Item(fault)));
        }
        add_indexed(&mut self.aboard, &mut self.group_ids, group, group.id)?;
        Ok(AfterLine::More)
    }

    fn take_call<S: Source>(&mut self, lines: &LineReader<S>) -> Result<AfterLine, LineFault>
        ensures { Did (after_word CallWord self.old (words lines.now)) result self.new }
    {
        let call = self.call_in(lines)?;
        let fault = indexed_call_fault(
            &self.building,
            self.moment,
            &self.aboard,
            &self.group_ids,
            &self.calls,
            &self.call_ids,
            &call,
        );
        if let Some(fault) = fault {
            return Err(LineFault::Bad(TextCode::Item(fault)));
        }
        add_indexed(&mut self.calls, &mut self.call_ids, call, call.id)?;
        Ok(AfterLine::More)
    }

    fn take_end<S: Source>(&mut self, lines: &LineReader<S>) -> Result<AfterLine, LineFault>
        ensures { Did (after_word End self.old (words lines.now)) result self.new }
    {
        Ok(self.end_in(lines)?)
    }

    /// What the first word of a line is, where any line word may stand.
    fn any_word<S: Source>(lines: &LineReader<S>) -> Result<LineWord, TextCode>
        requires { 0 < length (words lines.now) }
        ensures { result ≡ any_word (words lines.now) }
    {
        if is_word(lines, 0, b"snapshot") {
            return Ok(LineWord::Snapshot);
        }
        if is_word(lines, 0, b"now") {
            return Ok(LineWord::Now);
        }
        if is_word(lines, 0, b"car") {
            return Ok(LineWord::Car);
        }
        if is_word(lines, 0, b"aboard") {
            return Ok(LineWord::Aboard);
        }
        if is_word(lines, 0, b"call") {
            return Ok(LineWord::Call);
        }
        if is_word(lines, 0, b"end") {
            return Ok(LineWord::End);
        }
        Err(TextCode::NoLineWord)
    }

    /// What the first word of a line is, which must be `snapshot` where the first line is due.
    fn line_word<S: Source>(&self, lines: &LineReader<S>) -> Result<LineWord, TextCode>
        requires { 0 < length (words lines.now) }
        ensures { result ≡ line_word self.now.due (words lines.now) }
    {
        match self.due {
            Due::Version => {
                if is_word(lines, 0, b"snapshot") {
                    Ok(LineWord::Snapshot)
                } else {
                    Err(TextCode::NoLineWord)
                }
            }
            Due::Moment | Due::Items => Draft::any_word(lines),
        }
    }
}

impl Section for Draft {
    ghost use Rattle.snapshot_text.specs.Drafts.{after};

    ghost after = { after };

    fn take_line<S: Source>(&mut self, lines: &LineReader<S>) -> Result<AfterLine, LineFault> {
        match self.line_word(lines)? {
            LineWord::Snapshot => self.take_version(lines),
            LineWord::Now => self.take_moment(lines),
            LineWord::Car => self.take_car(lines),
            LineWord::Aboard => self.take_group(lines),
            LineWord::Call => self.take_call(lines),
            LineWord::End => self.take_end(lines),
        }
    }
}
