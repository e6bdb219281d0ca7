//! The labels of a picture.
ghost use Rattle.std.specs.Prelude.{◌≡◌, IfOk, map};
ghost use Rattle.lift_picture.specs.Labels.{car_label as car_label_lem, car_labels as car_labels_lem};
ghost use Rattle.lift_picture.specs.Labels.{floor_label as floor_label_lem, floor_labels as floor_labels_lem};
ghost use Rattle.lift_picture.specs.Labels.{legend_label as legend_label_lem};
ghost use Rattle.lift_picture.specs.Labels.{minute_label as minute_label_lem};
ghost use Rattle.lift_picture.specs.Labels.{minute_labels as minute_labels_lem, name_of_axis, name_of_floors};

use crate::frames::{Frame, LEFT, MINUTE, TOP};
use crate::layers::{legend_y, multiples};
use crate::scenes::Axis;
use std::alloc::{AllocError, Global};

/// Where a label stands at its place.
#[derive(Clone, Copy)]
pub(crate) enum Anchor {
    /// It begins there.
    Begin,
    /// Its middle is there.
    Middle,
    /// It ends there.
    End,
}

/// What a label says.
#[derive(Clone, Copy)]
pub(crate) enum Caption {
    Number { number: u64 },
    /// The id of a car.
    Car { id: u32 },
    Waiting,
    Riding,
    Refused,
    Floors,
    /// What is told to the right.
    Across { axis: Axis },
}

#[derive(Clone, Copy)]
pub(crate) struct Label {
    pub anchor: Anchor,
    pub x: u64,
    pub y: u64,
    pub caption: Caption,
}

/// From the middle of a label to its base line.
const HALF_HEIGHT: u64 = 4;

/// What labels at the left leave free up to the lines.
const GAP: u64 = 10;

fn floor_label(frame: Frame, floor: u32) -> Label
    ensures { result ≡ floor_label_lem frame floor }
{
    Label {
        anchor: Anchor::End,
        x: LEFT - GAP,
        y: frame.y(floor) + HALF_HEIGHT,
        caption: Caption::Number {
            number: u64::from(floor),
        },
    }
}

/// The labels of these floors.
fn labels_of_floors(alloc: Global, frame: Frame, floors: &[u32]) -> Result<Vec<Label>, AllocError>
    ensures { IfOk result (λ labels. labels.items ≡ map (floor_label_lem frame) floors.now) }
{
    floors
        .iter()
        .map(|floor| floor_label(frame, *floor))
        .collect(alloc)
}

/// The labels of floors, as many as there is room for.
pub(crate) fn floor_labels(alloc: Global, frame: Frame) -> Result<Vec<Label>, AllocError>
    ensures { IfOk result (λ labels. labels.items ≡ floor_labels_lem frame) }
{
    let floors = multiples(alloc, frame.floors, frame.floor_step())?;
    labels_of_floors(alloc, frame, floors.as_slice())
}

fn minute_label(frame: Frame, minute: u32) -> Label
    ensures { result ≡ minute_label_lem frame minute }
{
    Label {
        anchor: Anchor::Middle,
        x: frame.x_of_minute(minute),
        y: TOP + u64::from(frame.up) + 28,
        caption: Caption::Number {
            number: frame.first / MINUTE + u64::from(minute),
        },
    }
}

/// The labels of these minutes.
pub(crate) fn minute_labels(
    alloc: Global,
    frame: Frame,
    minutes: &[u32],
) -> Result<Vec<Label>, AllocError>
    ensures { IfOk result (λ labels. labels.items ≡ minute_labels_lem frame minutes.now) }
{
    minutes
        .iter()
        .map(|minute| minute_label(frame, *minute))
        .collect(alloc)
}

/// The label in this line of the legend.
pub(crate) fn legend_label(frame: Frame, place: u32, caption: Caption) -> Label
    ensures { result ≡ legend_label_lem frame place caption }
{
    Label {
        anchor: Anchor::Begin,
        x: u64::from(frame.width.saturating_sub(105)),
        y: legend_y(place) + HALF_HEIGHT,
        caption,
    }
}

fn car_label(frame: Frame, cars: &[u32], car: u32) -> Label
    ensures { result ≡ car_label_lem frame cars.now car }
{
    let id = cars.get(car as usize).copied().unwrap_or(0);
    legend_label(frame, car, Caption::Car { id })
}

/// The labels of the first cars, this many.
pub(crate) fn car_labels(
    alloc: Global,
    frame: Frame,
    cars: &[u32],
    count: u32,
) -> Result<Vec<Label>, AllocError>
    ensures { IfOk result (λ labels. labels.items ≡ car_labels_lem frame cars.now count) }
{
    (0..count)
        .map(|car| car_label(frame, cars, car))
        .collect(alloc)
}

/// What floors are called.
pub(crate) fn name_of_floors() -> Label
    ensures { result ≡ name_of_floors }
{
    Label {
        anchor: Anchor::End,
        x: LEFT - GAP,
        y: 20,
        caption: Caption::Floors,
    }
}

/// What is told to the right.
pub(crate) fn name_of_axis(frame: Frame, axis: Axis) -> Label
    ensures { result ≡ name_of_axis frame axis }
{
    Label {
        anchor: Anchor::End,
        x: LEFT + u64::from(frame.across),
        y: TOP + u64::from(frame.up) + 45,
        caption: Caption::Across { axis },
    }
}
