//! A building as far as its lines were read.
ghost use Rattle.std.specs.Prelude.{◌≡◌, ◌==◌, None, IfOk, IfErr};
ghost use Rattle.call_state.specs.BuildingParts.{building_of};
ghost use Rattle.call_state.specs.Squares.{square_of};
ghost use Rattle.elevator_model.specs.Faults.{first_fault_of_building};
ghost use Rattle.lift_text.specs.declared.faults.TextFault.TheVariants.{NoMemory};
ghost use Rattle.building_text.specs.BuildingText.{AreTravelTimes, HasTravel};
ghost use Rattle.building_text.specs.Drafts.{has_triple};

use crate::cars::car_of_line;
use crate::order::Due;
use crate::parts::{heights, one_number, two_numbers};
use call_state::{Building, BuildingParts, StateFault, Travel};
use car_motion::travel_of;
use elevator_model::{CarSpec, most_cars};
use lift_text::{LineReader, Source, TextCode, TextFault};
use motion_table::{judge_table, read_row};
use std::alloc::{AllocError, Global};
use std::marker::Model;
use text_sections::{AfterLine, LineFault, Section, exactly, is_word};

/// What was read of a building, and which line is due. What has not been read is 0 or empty.
#[derive(Drop)]
pub(crate) struct BuildingDraft {
    alloc: Global,
    due: Due,
    version: u8,
    speed: u64,
    accel: u64,
    wait_weight: u64,
    travel_weight: u64,
    patience: u64,
    patience_weight: u64,
    heights: Vec<u64>,
    times: Vec<u64>,
    cars: Vec<CarSpec>,
}

impl Model for BuildingDraft {
    ghost use Rattle.building_text.specs.Drafts.{Draft, HasFloors};

    ghost Value = { Draft };

    ghost view = { λ d. record {
      due = d.due;
      version = d.version;
      speed = d.speed;
      accel = d.accel;
      wait_weight = d.wait_weight;
      travel_weight = d.travel_weight;
      patience = d.patience;
      patience_weight = d.patience_weight;
      heights = d.heights.items;
      times = d.times.items;
      cars = d.cars.items;
    } };

    ghost invariant = { λ d. HasFloors d.due d.heights.items };
}

impl BuildingDraft {
    ghost use Rattle.std.specs.Prelude.{◌≡◌, ◌<◌, length, IfOk, IfErr};
    ghost use Rattle.lift_text.specs.declared.faults.TextFault.TheVariants.{NoMemory};
    ghost use Rattle.building_text.specs.BuildingText.{Stands, IsWhole};
    ghost use Rattle.lift_text.specs.LineReader.{words};
    ghost use Rattle.building_text.specs.declared.order.Due.TheVariants.{Version, Speed, Accel, Weights};
    ghost use Rattle.building_text.specs.declared.order.Due.TheVariants.{Patience, Floors, Times, FirstCar};
    ghost use Rattle.building_text.specs.declared.order.Due.TheVariants.{NextCar};
    ghost use Rattle.building_text.specs.Said.{Became};
    ghost use Rattle.building_text.specs.Drafts.{no_draft, taken, with_times, car_taken, HasFloors};

    /// Nothing was read yet.
    pub(crate) fn new(alloc: Global) -> BuildingDraft
        ensures { result ≡ no_draft }
    {
        BuildingDraft {
            alloc,
            due: Due::Version,
            version: 0,
            speed: 0,
            accel: 0,
            wait_weight: 0,
            travel_weight: 0,
            patience: 0,
            patience_weight: 0,
            heights: Vec::new(alloc),
            times: Vec::new(alloc),
            cars: Vec::new(alloc),
        }
    }

    fn take_version<S: Source>(&mut self, lines: &LineReader<S>) -> Result<(), LineFault>
        ensures { Became (taken Version self.old (words lines.now)) result self.new }
    {
        let version = one_number(lines, 1, 3)?;
        self.version = version as u8;
        self.due = Due::Speed;
        Ok(())
    }

    fn take_speed<S: Source>(&mut self, lines: &LineReader<S>) -> Result<(), LineFault>
        ensures { Became (taken Speed self.old (words lines.now)) result self.new }
    {
        self.speed = one_number(lines, 100, 20_000)?;
        self.due = Due::Accel;
        Ok(())
    }

    fn take_accel<S: Source>(&mut self, lines: &LineReader<S>) -> Result<(), LineFault>
        ensures { Became (taken Accel self.old (words lines.now)) result self.new }
    {
        self.accel = one_number(lines, 100, 5_000)?;
        self.due = Due::Weights;
        Ok(())
    }

    fn take_weights<S: Source>(&mut self, lines: &LineReader<S>) -> Result<(), LineFault>
        ensures { Became (taken Weights self.old (words lines.now)) result self.new }
    {
        let (wait, travel) = two_numbers(lines, 1_000, 1_000)?;
        self.wait_weight = wait;
        self.travel_weight = travel;
        self.due = Due::after_weights(self.version);
        Ok(())
    }

    fn take_patience<S: Source>(&mut self, lines: &LineReader<S>) -> Result<(), LineFault>
        ensures { Became (taken Patience self.old (words lines.now)) result self.new }
    {
        let (patience, weight) = two_numbers(lines, 1_000_000_000, 1_000)?;
        self.patience = patience;
        self.patience_weight = weight;
        self.due = Due::Floors;
        Ok(())
    }

    fn take_heights<S: Source>(&mut self, lines: &LineReader<S>) -> Result<(), LineFault>
        ensures { Became (taken Floors self.old (words lines.now)) result self.new }
    {
        self.heights = heights(self.alloc, lines)?;
        self.due = Due::after_floors(self.version);
        Ok(())
    }

    fn take_times<S: Source>(&mut self, lines: &LineReader<S>) -> Result<(), LineFault>
        requires { self.old.due ≡ Times }
        ensures { Became (taken Times self.old (words lines.now)) result self.new }
    {
        let floors = self.heights.len() as u32;
        read_row(lines, Some(floors), &mut self.times)?;
        self.judge_times()
    }

    /// Judges the times once each floor has its line.
    fn judge_times(&mut self) -> Result<(), LineFault>
        requires { self.old.due ≡ Times }
        ensures { Became (with_times self.old self.old.times) result self.new }
    {
        let floors = self.heights.len();
        if self.times.len() != floors * floors {
            return Ok(());
        }
        if has_triple(floors as u32, &self.times) {
            return Err(LineFault::Bad(TextCode::ShorterWay));
        }
        self.due = Due::FirstCar;
        Ok(())
    }

    fn take_car<S: Source>(&mut self, lines: &LineReader<S>) -> Result<(), LineFault>
        requires { HasFloors NextCar self.old.heights }
        ensures { Became (car_taken self.old (words lines.now)) result self.new }
    {
        let floors = self.heights.len() as u32;
        let car = car_of_line(
            self.alloc,
            floors,
            most_cars(self.version),
            &self.cars,
            lines,
        )?;
        self.cars.push(car)?;
        self.due = Due::NextCar;
        Ok(())
    }

    /// The building that was read whole. It fails only where there is no memory left.
    pub(crate) fn finish(self) -> Result<Building, TextFault>
        requires { IsWhole self }
        ensures stands { IfOk result (Stands self) }
        ensures failed { IfErr result (λ fault. fault ≡ NoMemory) }
    {
        let BuildingDraft {
            alloc,
            due: _,
            version,
            speed,
            accel,
            wait_weight,
            travel_weight,
            patience,
            patience_weight,
            heights,
            times,
            cars,
        } = self;
        let travel = travel_times(alloc, version, &heights, speed, accel, times)?;
        let parts = BuildingParts {
            version,
            heights,
            speed,
            accel,
            wait_weight,
            travel_weight,
            patience,
            patience_weight,
            cars,
            travel,
        };
        built(alloc, parts)
    }

    /// Takes the line that is due.
    fn take_due<S: Source>(&mut self, lines: &LineReader<S>) -> Result<(), LineFault>
        ensures { Became (taken self.old.due self.old (words lines.now)) result self.new }
    {
        match self.due {
            Due::Version => self.take_version(lines),
            Due::Speed => self.take_speed(lines),
            Due::Accel => self.take_accel(lines),
            Due::Weights => self.take_weights(lines),
            Due::Patience => self.take_patience(lines),
            Due::Floors => self.take_heights(lines),
            Due::Times => self.take_times(lines),
            Due::FirstCar | Due::NextCar => self.take_car(lines),
        }
    }
}

/// The travel times in ms: the stated ones in version 3, and the least ones over the heights in the others.
fn travel_times(
    alloc: Global,
    version: u8,
    heights: &[u64],
    speed: u64,
    accel: u64,
    times: Vec<u64>,
) -> Result<Travel, AllocError>
    requires { HasTravel version heights.now speed accel times.items }
    ensures { IfOk result (AreTravelTimes (version == 3) heights.now speed accel times.items) }
{
    if version != 3 {
        return travel_of(alloc, heights, speed, accel);
    }
    Ok(Travel::of_square(heights.len() as u32, times))
}

/// The building of parts that have no fault.
fn built(alloc: Global, parts: BuildingParts) -> Result<Building, TextFault>
    requires { first_fault_of_building (building_of parts) ≡ None }
    ensures value { IfOk result (λ building. building ≡ building_of parts) }
    ensures failed { IfErr result (λ fault. fault ≡ NoMemory) }
{
    match Building::build(alloc, parts) {
        Ok(building) => Ok(building),
        Err(StateFault::NoMemory) => Err(TextFault::NoMemory),
        Err(StateFault::Bad { .. }) => unreachable!(),
    }
}

/// Whether some way over a third floor is shorter, in a square of times in ms.
fn has_triple(floors: u32, times: &[u64]) -> bool
    ensures { result ≡ has_triple (square_of floors times.now) }
{
    match judge_table(floors, times) {
        Ok(()) => false,
        Err(_) => true,
    }
}

impl Section for BuildingDraft {
    ghost use Rattle.building_text.specs.Drafts.{after};

    ghost after = { after };

    fn take_line<S: Source>(&mut self, lines: &LineReader<S>) -> Result<AfterLine, LineFault> {
        if self.due.may_end() && is_word(lines, 0, b"end") {
            exactly(lines, 1)?;
            return Ok(AfterLine::Whole);
        }
        if !is_word(lines, 0, self.due.name()) {
            return Err(LineFault::from(self.due.misplaced(self.version, lines)));
        }
        self.take_due(lines)?;
        Ok(AfterLine::More)
    }
}
