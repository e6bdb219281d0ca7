//! A picture of a day of a group of cars, or of a plan, as SVG: floors upwards, time or stops to the right.
//!
//! Moments are in ms, places in units of the picture. Floors are numbered from 0, cars by their place in the
//! building.
//!
//! # What is promised
//!
//! - `draw_scene` gives exactly the text of the picture of a scene (`picture_text`); or it is out of memory.
//! - `picture_laws`: no place of a moment or a floor lies outside the lines of floors and minutes; each
//!   line of a layer is drawn, and no other; each event has one thick piece (`PictureLaws`).
//!
//! The picture is a list of layers (`specs/Layers.antt`), one above the other: a line for each floor and
//! for minutes, the waits of all calls, then for each car the rides of its calls, its way, and a thick
//! piece for each event of the log, as long as its persons get off or on; then the refused rows. Where a
//! moment and a floor are is a linear scale in whole units, rounded down (`specs/Frames.antt`). In a layer
//! a line that is drawn just as the one before it is left out, and nothing else is (`thinned`).
//! `specs/Svg.antt` has the text, `proofs/Worked.antt` worked cases.
#![tactic(auto)]

mod drawing;
mod frames;
mod labels;
mod laws;
mod layers;
mod scenes;
mod segments;
mod svg;

pub use drawing::draw_scene;
pub use frames::Size;
pub use laws::picture_laws;
pub use scenes::{Axis, Leg, LegKind, Refusal, Scene};
