//! The text of a picture.
ghost use Rattle.std.specs.Prelude.{◌≡◌, ◌++◌, OnOk};
ghost use Rattle.std.specs.List.{flat_map};
ghost use Rattle.lift_picture.specs.Svg.{anchor_text, axis_text, begin_text, caption_text, car_styles};
ghost use Rattle.lift_picture.specs.Svg.{head_text};
ghost use Rattle.lift_picture.specs.Svg.{height_text, ink_text, label_text, layer_text, line_styles};
ghost use Rattle.lift_picture.specs.Svg.{size_text, style_text, width_text};

use crate::frames::Size;
use crate::labels::{Anchor, Caption, Label};
use crate::layers::Ink;
use crate::scenes::Axis;
use crate::segments::{Segment, put_segments};
use lift_text::{put_number, put_words};
use std::alloc::AllocError;

/// How each kind of line is drawn.
const LINE_STYLES: &[u8] = b"<style>path{fill:none}text{fill:#333}.b{text-anchor:start}\
.m{text-anchor:middle}.e{text-anchor:end}.floor,.minute{stroke:#e4e4e4}\
.wait{stroke:#999;stroke-width:4;stroke-opacity:.6}.ride{stroke-width:.6}.way{stroke-width:1.4}\
.doors{stroke-width:5;stroke-linecap:round}.refused{stroke:#c00;stroke-width:1.6}\n";

/// The colour of each car.
const CAR_STYLES: &[u8] = b"[class~='0']{stroke:#1f77b4}[class~='1']{stroke:#e07b00}\
[class~='2']{stroke:#2ca02c}[class~='3']{stroke:#9467bd}[class~='4']{stroke:#8c564b}\
[class~='5']{stroke:#d957a8}[class~='6']{stroke:#11a5b8}[class~='7']{stroke:#a3a51b}\
[class~='8']{stroke:#393b79}[class~='9']{stroke:#b5480b}[class~='10']{stroke:#1e7a3a}\
[class~='11']{stroke:#5b51a8}[class~='12']{stroke:#444}[class~='13']{stroke:#a04a91}\
[class~='14']{stroke:#4b8fc4}[class~='15']{stroke:#b8434a}</style>\n";

#[tactic(auto, unfolding(crate::specs::Svg::line_styles))]
fn put_line_styles(out: &mut Vec<u8>) -> Result<(), AllocError>
    ensures { OnOk result (out.new.items ≡ out.old.items ++ line_styles) }
{
    out.extend_from_slice(LINE_STYLES)
}

#[tactic(auto, unfolding(crate::specs::Svg::car_styles))]
fn put_car_styles(out: &mut Vec<u8>) -> Result<(), AllocError>
    ensures { OnOk result (out.new.items ≡ out.old.items ++ car_styles) }
{
    out.extend_from_slice(CAR_STYLES)
}

#[tactic(auto, unfolding(crate::specs::Svg::style_text))]
fn put_style(out: &mut Vec<u8>) -> Result<(), AllocError>
    ensures { OnOk result (out.new.items ≡ out.old.items ++ style_text) }
{
    put_line_styles(out)?;
    put_car_styles(out)
}

#[tactic(auto, unfolding(crate::specs::Svg::begin_text))]
fn put_begin(out: &mut Vec<u8>) -> Result<(), AllocError>
    ensures { OnOk result (out.new.items ≡ out.old.items ++ begin_text) }
{
    out.extend_from_slice(b"<svg xmlns='http://www.w3.org/2000/svg' width='")
}

#[tactic(auto, unfolding(crate::specs::Svg::width_text))]
fn put_width(out: &mut Vec<u8>, width: u32) -> Result<(), AllocError>
    ensures { OnOk result (out.new.items ≡ out.old.items ++ width_text width) }
{
    put_begin(out)?;
    put_number(out, i128::from(width))
}

#[tactic(auto, unfolding(crate::specs::Svg::height_text))]
fn put_height(out: &mut Vec<u8>, height: u32) -> Result<(), AllocError>
    ensures { OnOk result (out.new.items ≡ out.old.items ++ height_text height) }
{
    out.extend_from_slice(b"' height='")?;
    put_number(out, i128::from(height))?;
    out.extend_from_slice(b"' font-family='sans-serif' font-size='12'>\n")
}

/// Appends the first line of the text.
#[tactic(auto, unfolding(crate::specs::Svg::size_text))]
fn put_size(out: &mut Vec<u8>, size: Size) -> Result<(), AllocError>
    ensures { OnOk result (out.new.items ≡ out.old.items ++ size_text size) }
{
    put_width(out, size.width)?;
    put_height(out, size.height)
}

/// Appends what stands before the layers.
#[tactic(auto, unfolding(crate::specs::Svg::head_text))]
pub(crate) fn put_head(out: &mut Vec<u8>, size: Size) -> Result<(), AllocError>
    ensures { OnOk result (out.new.items ≡ out.old.items ++ head_text size) }
{
    put_size(out, size)?;
    put_style(out)?;
    out.extend_from_slice(b"<rect width='100%' height='100%' fill='#fff'/>\n")
}

#[tactic(auto, unfolding(crate::specs::Svg::ink_text))]
fn put_ink(out: &mut Vec<u8>, ink: Ink) -> Result<(), AllocError>
    ensures { OnOk result (out.new.items ≡ out.old.items ++ ink_text ink) }
{
    match ink {
        Ink::Floor => out.extend_from_slice(b"floor"),
        Ink::Minute => out.extend_from_slice(b"minute"),
        Ink::Wait => out.extend_from_slice(b"wait"),
        Ink::Ride { car } => put_words(out, b"ride", &[u64::from(car)]),
        Ink::Way { car } => put_words(out, b"way", &[u64::from(car)]),
        Ink::Doors { car } => put_words(out, b"doors", &[u64::from(car)]),
        Ink::Refused => out.extend_from_slice(b"refused"),
    }
}

/// Appends a layer: a path of all its segments but those that are left out.
#[tactic(auto, unfolding(crate::specs::Svg::layer_text))]
pub(crate) fn put_layer(out: &mut Vec<u8>, ink: Ink, segments: &[Segment]) -> Result<(), AllocError>
    ensures { OnOk result (out.new.items ≡ out.old.items ++ layer_text ink segments.now) }
{
    out.extend_from_slice(b"<path class='")?;
    put_ink(out, ink)?;
    out.extend_from_slice(b"' d='")?;
    put_segments(out, segments)?;
    out.extend_from_slice(b"'/>\n")
}

#[tactic(auto, unfolding(crate::specs::Svg::anchor_text))]
fn put_anchor(out: &mut Vec<u8>, anchor: Anchor) -> Result<(), AllocError>
    ensures { OnOk result (out.new.items ≡ out.old.items ++ anchor_text anchor) }
{
    match anchor {
        Anchor::Begin => out.extend_from_slice(b"b"),
        Anchor::Middle => out.extend_from_slice(b"m"),
        Anchor::End => out.extend_from_slice(b"e"),
    }
}

#[tactic(auto, unfolding(crate::specs::Svg::axis_text))]
fn put_axis(out: &mut Vec<u8>, axis: Axis) -> Result<(), AllocError>
    ensures { OnOk result (out.new.items ≡ out.old.items ++ axis_text axis) }
{
    match axis {
        Axis::Minutes => out.extend_from_slice(b"minutes"),
        Axis::Stops => out.extend_from_slice(b"stops"),
    }
}

#[tactic(auto, unfolding(crate::specs::Svg::caption_text))]
fn put_caption(out: &mut Vec<u8>, caption: Caption) -> Result<(), AllocError>
    ensures { OnOk result (out.new.items ≡ out.old.items ++ caption_text caption) }
{
    match caption {
        Caption::Number { number } => put_number(out, i128::from(number)),
        Caption::Car { id } => put_words(out, b"car", &[u64::from(id)]),
        Caption::Waiting => out.extend_from_slice(b"call waits"),
        Caption::Riding => out.extend_from_slice(b"call rides"),
        Caption::Refused => out.extend_from_slice(b"row refused"),
        Caption::Floors => out.extend_from_slice(b"floor"),
        Caption::Across { axis } => put_axis(out, axis),
    }
}

/// Appends a label.
#[tactic(auto, unfolding(crate::specs::Svg::label_text))]
pub(crate) fn put_label(out: &mut Vec<u8>, label: &Label) -> Result<(), AllocError>
    ensures { OnOk result (out.new.items ≡ out.old.items ++ label_text label.now) }
{
    out.extend_from_slice(b"<text class='")?;
    put_anchor(out, label.anchor)?;
    put_words(out, b"' transform='translate(", &[label.x, label.y])?;
    out.extend_from_slice(b")'>")?;
    put_caption(out, label.caption)?;
    out.extend_from_slice(b"</text>\n")
}

/// Appends labels.
pub(crate) fn put_labels(out: &mut Vec<u8>, labels: &[Label]) -> Result<(), AllocError>
    ensures { OnOk result (out.new.items ≡ out.old.items ++ flat_map label_text labels.now) }
{
    for label in labels {
        put_label(out, label)?;
    }
    Ok(())
}
