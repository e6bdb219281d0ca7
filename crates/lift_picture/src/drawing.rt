//! Draws a day, or a plan.
ghost use Rattle.std.specs.Prelude.{◌≡◌, ◌≤◌, ◌++◌, IfOk, OnOk, length};
ghost use Rattle.std.specs.List.{flat_map, range_with_len};
ghost use Rattle.lift_picture.specs.Svg.{car_text, ground_text, labels_text, layers_text, picture_text};
ghost use Rattle.lift_picture.specs.Svg.{call_samples_text, label_text, layer_text, name_labels, names_text};
ghost use Rattle.lift_picture.specs.Svg.{refused_label_text, refused_sample_text, refused_text, sample_text};
ghost use Rattle.lift_picture.specs.Svg.{samples_text, way_text};
ghost use Rattle.lift_picture.specs.Layers.{floor_lines as floor_lines_lem, minute_lines as minute_lines_lem};
ghost use Rattle.lift_picture.specs.Layers.{ticks as ticks_lem, waits_of as waits_of_lem};
ghost use Rattle.lift_picture.specs.Labels.{car_labels as car_labels_lem, floor_labels as floor_labels_lem};
ghost use Rattle.lift_picture.specs.Labels.{minute_labels as minute_labels_lem};

use crate::frames::{Frame, Size};
use crate::labels::{
    Caption, car_labels, floor_labels, legend_label, minute_labels, name_of_axis, name_of_floors,
};
use crate::layers::{
    Ink, doors_of, fall_at, falls_of, floor_lines, legend_y, legs_of, minute_lines, rides_of,
    rise_at, rises_of, sample_line, stands_of, ticks, waits_of, ways_of,
};
use crate::scenes::{Axis, Leg, Refusal, Scene};
use crate::svg::{put_head, put_label, put_labels, put_layer};
use std::alloc::{AllocError, Global};

// ---- layers

fn put_floors(alloc: Global, out: &mut Vec<u8>, frame: Frame) -> Result<(), AllocError>
    ensures { OnOk result (out.new.items ≡ out.old.items ++ layer_text Ink.Floor (floor_lines_lem frame)) }
{
    let lines = floor_lines(alloc, frame)?;
    put_layer(out, Ink::Floor, lines.as_slice())
}

fn put_minutes(alloc: Global, out: &mut Vec<u8>, frame: Frame) -> Result<(), AllocError>
    ensures { OnOk result (out.new.items ≡ out.old.items
        ++ layer_text Ink.Minute (minute_lines_lem frame (ticks_lem frame))) }
{
    let minutes = ticks(alloc, frame)?;
    let lines = minute_lines(alloc, frame, minutes.as_slice())?;
    put_layer(out, Ink::Minute, lines.as_slice())
}

fn put_waits(alloc: Global, out: &mut Vec<u8>, frame: Frame, legs: &[Leg]) -> Result<(), AllocError>
    ensures { OnOk result (out.new.items ≡ out.old.items
        ++ layer_text Ink.Wait (waits_of_lem frame legs.now)) }
{
    let lines = waits_of(alloc, frame, legs)?;
    put_layer(out, Ink::Wait, lines.as_slice())
}

/// Appends the layers below those of the cars.
#[tactic(auto, unfolding(crate::specs::Svg::ground_text))]
fn put_ground(
    alloc: Global,
    out: &mut Vec<u8>,
    frame: Frame,
    legs: &[Leg],
) -> Result<(), AllocError>
    ensures { OnOk result (out.new.items ≡ out.old.items ++ ground_text frame legs.now) }
{
    put_floors(alloc, out, frame)?;
    put_minutes(alloc, out, frame)?;
    put_waits(alloc, out, frame, legs)
}

/// Appends the way of a car.
#[tactic(auto, unfolding(crate::specs::Svg::way_text))]
fn put_way(
    alloc: Global,
    out: &mut Vec<u8>,
    frame: Frame,
    legs: &[Leg],
    car: u32,
) -> Result<(), AllocError>
    ensures { OnOk result (out.new.items ≡ out.old.items ++ way_text frame legs.now car) }
{
    let own = legs_of(alloc, legs, car)?;
    let stands = stands_of(alloc, frame, own.as_slice())?;
    put_layer(out, Ink::Way { car }, stands.as_slice())?;
    let ways = ways_of(alloc, frame, own.as_slice())?;
    put_layer(out, Ink::Way { car }, ways.as_slice())
}

/// Appends the layers of one car.
#[tactic(auto, unfolding(crate::specs::Svg::car_text))]
fn put_car(
    alloc: Global,
    out: &mut Vec<u8>,
    frame: Frame,
    legs: &[Leg],
    car: u32,
) -> Result<(), AllocError>
    ensures { OnOk result (out.new.items ≡ out.old.items ++ car_text frame legs.now car) }
{
    let rides = rides_of(alloc, frame, legs, car)?;
    put_layer(out, Ink::Ride { car }, rides.as_slice())?;
    put_way(alloc, out, frame, legs, car)?;
    let doors = doors_of(alloc, frame, legs, car)?;
    put_layer(out, Ink::Doors { car }, doors.as_slice())
}

/// Appends the layers of each of this many cars.
fn put_cars(
    alloc: Global,
    out: &mut Vec<u8>,
    frame: Frame,
    legs: &[Leg],
    cars: u32,
) -> Result<(), AllocError>
    ensures { OnOk result (out.new.items ≡ out.old.items
        ++ flat_map (car_text frame legs.now) (range_with_len 0 cars)) }
{
    for car in 0..cars {
        put_car(alloc, out, frame, legs, car)?;
    }
    Ok(())
}

/// Appends the crosses of refused rows.
#[tactic(auto, unfolding(crate::specs::Svg::refused_text))]
fn put_refused(
    alloc: Global,
    out: &mut Vec<u8>,
    frame: Frame,
    scene: &Scene,
) -> Result<(), AllocError>
    ensures { OnOk result (out.new.items ≡ out.old.items ++ refused_text frame scene.now) }
{
    let falls = falls_of(alloc, frame, &scene.refusals)?;
    put_layer(out, Ink::Refused, falls.as_slice())?;
    let rises = rises_of(alloc, frame, &scene.refusals)?;
    put_layer(out, Ink::Refused, rises.as_slice())
}

// ---- the legend

#[tactic(auto, unfolding(crate::specs::Svg::sample_text))]
fn put_sample(out: &mut Vec<u8>, frame: Frame, car: u32) -> Result<(), AllocError>
    ensures { OnOk result (out.new.items ≡ out.old.items ++ sample_text frame car) }
{
    put_layer(out, Ink::Doors { car }, &[sample_line(frame, car)])
}

fn put_car_samples(out: &mut Vec<u8>, frame: Frame, cars: u32) -> Result<(), AllocError>
    ensures { OnOk result (out.new.items ≡ out.old.items
        ++ flat_map (sample_text frame) (range_with_len 0 cars)) }
{
    for car in 0..cars {
        put_sample(out, frame, car)?;
    }
    Ok(())
}

/// Appends the samples of a wait and a ride.
#[tactic(auto, unfolding(crate::specs::Svg::call_samples_text))]
fn put_call_samples(out: &mut Vec<u8>, frame: Frame, cars: u32) -> Result<(), AllocError>
    requires { cars ≤ 16 }
    ensures { OnOk result (out.new.items ≡ out.old.items ++ call_samples_text frame cars) }
{
    put_layer(out, Ink::Wait, &[sample_line(frame, cars)])?;
    put_layer(out, Ink::Ride { car: 0 }, &[sample_line(frame, cars + 1)])
}

/// Appends the sample of a refused row, where there is one.
fn put_refused_sample(
    out: &mut Vec<u8>,
    frame: Frame,
    place: u32,
    refusals: &[Refusal],
) -> Result<(), AllocError>
    ensures { OnOk result
        (out.new.items ≡ out.old.items ++ refused_sample_text frame place refusals.now) }
{
    if refusals.is_empty() {
        return Ok(());
    }
    let x = u64::from(frame.width.saturating_sub(125));
    let y = legend_y(place);
    put_layer(out, Ink::Refused, &[fall_at(x, y), rise_at(x, y)])
}

/// Appends the samples of the legend.
#[tactic(auto, unfolding(crate::specs::Svg::samples_text))]
fn put_samples(out: &mut Vec<u8>, frame: Frame, scene: &Scene, cars: u32) -> Result<(), AllocError>
    requires { cars ≤ 16 }
    ensures { OnOk result (out.new.items ≡ out.old.items ++ samples_text frame scene.now cars) }
{
    put_car_samples(out, frame, cars)?;
    put_call_samples(out, frame, cars)?;
    put_refused_sample(out, frame, cars + 2, &scene.refusals)
}

// ---- labels

fn put_floor_labels(alloc: Global, out: &mut Vec<u8>, frame: Frame) -> Result<(), AllocError>
    ensures { OnOk result (out.new.items ≡ out.old.items ++ flat_map label_text (floor_labels_lem frame)) }
{
    let labels = floor_labels(alloc, frame)?;
    put_labels(out, labels.as_slice())
}

fn put_minute_labels(alloc: Global, out: &mut Vec<u8>, frame: Frame) -> Result<(), AllocError>
    ensures { OnOk result (out.new.items ≡ out.old.items
        ++ flat_map label_text (minute_labels_lem frame (ticks_lem frame))) }
{
    let minutes = ticks(alloc, frame)?;
    let labels = minute_labels(alloc, frame, minutes.as_slice())?;
    put_labels(out, labels.as_slice())
}

fn put_car_labels(
    alloc: Global,
    out: &mut Vec<u8>,
    frame: Frame,
    ids: &[u32],
    cars: u32,
) -> Result<(), AllocError>
    ensures { OnOk result (out.new.items ≡ out.old.items
        ++ flat_map label_text (car_labels_lem frame ids.now cars)) }
{
    let labels = car_labels(alloc, frame, ids, cars)?;
    put_labels(out, labels.as_slice())
}

/// Appends the labels of a wait and a ride in the legend, and the names of the axes.
fn put_axis_names(out: &mut Vec<u8>, frame: Frame, axis: Axis, cars: u32) -> Result<(), AllocError>
    requires { cars ≤ 16 }
    ensures { OnOk result
        (out.new.items ≡ out.old.items ++ flat_map label_text (name_labels frame axis cars)) }
{
    let labels = [
        legend_label(frame, cars, Caption::Waiting),
        legend_label(frame, cars + 1, Caption::Riding),
        name_of_floors(),
        name_of_axis(frame, axis),
    ];
    put_labels(out, &labels)
}

/// Appends the label of a refused row in the legend, where there is one.
fn put_refused_label(
    out: &mut Vec<u8>,
    frame: Frame,
    place: u32,
    refusals: &[Refusal],
) -> Result<(), AllocError>
    ensures { OnOk result
        (out.new.items ≡ out.old.items ++ refused_label_text frame place refusals.now) }
{
    if refusals.is_empty() {
        return Ok(());
    }
    put_label(out, &legend_label(frame, place, Caption::Refused))
}

/// Appends the labels of the legend below those of the cars, and the names of the axes.
#[tactic(auto, unfolding(crate::specs::Svg::names_text))]
fn put_names(out: &mut Vec<u8>, frame: Frame, scene: &Scene, cars: u32) -> Result<(), AllocError>
    requires { cars ≤ 16 }
    ensures { OnOk result (out.new.items ≡ out.old.items ++ names_text frame scene.now cars) }
{
    put_axis_names(out, frame, scene.axis, cars)?;
    put_refused_label(out, frame, cars + 2, &scene.refusals)
}

// ---- all of it

#[tactic(auto, unfolding(crate::specs::Svg::layers_text))]
fn put_layers(
    alloc: Global,
    out: &mut Vec<u8>,
    frame: Frame,
    scene: &Scene,
    cars: u32,
) -> Result<(), AllocError>
    requires cars { cars ≡ length scene.now.cars.items }
    requires few { cars ≤ 16 }
    ensures { OnOk result (out.new.items ≡ out.old.items ++ layers_text frame scene.now) }
{
    put_ground(alloc, out, frame, &scene.legs)?;
    put_cars(alloc, out, frame, &scene.legs, cars)?;
    put_refused(alloc, out, frame, scene)?;
    put_samples(out, frame, scene, cars)
}

#[tactic(auto, unfolding(crate::specs::Svg::labels_text))]
fn put_all_labels(
    alloc: Global,
    out: &mut Vec<u8>,
    frame: Frame,
    scene: &Scene,
    cars: u32,
) -> Result<(), AllocError>
    requires cars { cars ≡ length scene.now.cars.items }
    requires few { cars ≤ 16 }
    ensures { OnOk result (out.new.items ≡ out.old.items ++ labels_text frame scene.now) }
{
    put_floor_labels(alloc, out, frame)?;
    put_minute_labels(alloc, out, frame)?;
    put_car_labels(alloc, out, frame, &scene.cars, cars)?;
    put_names(out, frame, scene, cars)
}

#[tactic(auto, unfolding(crate::specs::Svg::picture_text))]
fn put_picture(
    alloc: Global,
    out: &mut Vec<u8>,
    size: Size,
    scene: &Scene,
) -> Result<(), AllocError>
    requires { length scene.now.cars.items ≤ 16 }
    ensures { OnOk result (out.new.items ≡ out.old.items ++ picture_text size scene.now) }
{
    let frame = Frame::of(size, scene);
    let cars = scene.cars.len() as u32;
    put_head(out, size)?;
    put_layers(alloc, out, frame, scene, cars)?;
    put_all_labels(alloc, out, frame, scene, cars)?;
    out.extend_from_slice(b"</svg>\n")
}

/// The picture of a scene in this size, as SVG. It fails only where there is no memory left.
pub fn draw_scene(alloc: Global, size: Size, scene: &Scene) -> Result<Vec<u8>, AllocError>
    requires { length scene.now.cars.items ≤ 16 }
    ensures { IfOk result (λ text. text.items ≡ picture_text size scene.now) }
{
    let mut text = Vec::new(alloc);
    put_picture(alloc, &mut text, size, scene)?;
    Ok(text)
}
