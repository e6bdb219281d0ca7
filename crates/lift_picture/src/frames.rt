//! Where in a picture floors and moments are.
ghost use Rattle.std.specs.Prelude.{◌≡◌, ◌≤◌, ◌<◌, ◌^◌};
ghost use Rattle.lift_picture.specs.Frames.{below as below_lem, frame_of, last_done, last_refused};
ghost use Rattle.lift_picture.specs.Frames.{minute_step as minute_step_lem};
ghost use Rattle.lift_picture.specs.Frames.{floor_step as floor_step_lem, minutes as minutes_lem};
ghost use Rattle.lift_picture.specs.Frames.{scaled as scaled_lem, x_at, x_of_minute, y_at};

use crate::scenes::{Leg, Refusal, Scene};

/// What lies left of the first moment.
pub(crate) const LEFT: u64 = 60;

/// What lies above the top floor.
pub(crate) const TOP: u64 = 40;

/// What lies left and right of the days' moments together.
const BESIDE: u32 = 210;

/// What lies above and below the floors together.
const AROUND: u32 = 90;

/// A minute in ms.
pub(crate) const MINUTE: u64 = 60_000;

/// The most minutes that are counted.
const MOST_MINUTES: u64 = 4_294_967_294;

/// The size of a picture.
#[derive(Clone, Copy)]
pub struct Size {
    pub width: u32,
    pub height: u32,
}

/// The scales of a picture.
#[derive(Clone, Copy)]
pub(crate) struct Frame {
    pub width: u32,
    pub height: u32,
    /// How long the line of a floor is.
    pub across: u32,
    /// How far it is from the lowest floor to the top one.
    pub up: u32,
    /// The first moment, a whole minute, in ms.
    pub first: u64,
    /// How long it is from there to the last one, in ms.
    pub whole: u64,
    pub floors: u32,
}

/// Where this part of the whole ends on a line of this length: rounded down, and never past the line.
#[tactic(auto, unfolding(crate::specs::Frames::scaled))]
fn scaled(part: u64, whole: u64, span: u32) -> u64
    ensures value { result ≡ scaled_lem part whole span }
    ensures within { result ≤ span }
{
    let place = u128::from(part) * u128::from(span) / u128::from(whole.max(1));
    place.min(u128::from(span)) as u64
}

/// The last moment at which persons of an event are done, or this one.
fn last_done(first: u64, legs: &[Leg]) -> u64
    ensures { result ≡ last_done first legs.now }
{
    legs.iter().fold(first, |last, leg| last.max(leg.done))
}

/// The last moment of a refused row, or this one.
fn last_refused(first: u64, refusals: &[Refusal]) -> u64
    ensures { result ≡ last_refused first refusals.now }
{
    refusals
        .iter()
        .fold(first, |last, refusal| last.max(refusal.moment))
}

impl Frame {
    /// The scales of the picture of this day.
    pub(crate) fn of(size: Size, scene: &Scene) -> Frame
        ensures { result ≡ frame_of size scene.now }
    {
        let first = scene.start / MINUTE * MINUTE;
        let last = last_refused(last_done(first, &scene.legs), &scene.refusals);
        Frame {
            width: size.width,
            height: size.height,
            across: size.width.saturating_sub(BESIDE),
            up: size.height.saturating_sub(AROUND),
            first,
            whole: last.saturating_sub(first),
            floors: scene.floors,
        }
    }

    /// How far to the right a moment is.
    pub(crate) fn x(self, moment: u64) -> u64
        ensures value { result ≡ x_at self moment }
        ensures near { result ≤ 2 ^ 40 }
    {
        LEFT + scaled(moment.saturating_sub(self.first), self.whole, self.across)
    }

    /// How far down a floor is.
    pub(crate) fn y(self, floor: u32) -> u64
        ensures value { result ≡ y_at self floor }
        ensures near { result ≤ 2 ^ 40 }
    {
        let top = self.floors.saturating_sub(1);
        TOP + (u64::from(self.up) - scaled(u64::from(floor), u64::from(top), self.up))
    }

    /// How far below its floor the bar of a call is: 4, 8 or 12, by its number, where floors are far enough
    /// apart.
    pub(crate) fn below(self, call: u64) -> u64
        ensures value { result ≡ below_lem self call }
        ensures near { result ≤ 12 }
    {
        let gap = u64::from(self.up) / u64::from(self.floors.saturating_sub(1).max(1));
        (4 + 4 * (call % 3)).min(gap / 2)
    }

    /// How many whole minutes the picture has, as far as 32 bits go.
    pub(crate) fn minutes(self) -> u32
        ensures value { result ≡ minutes_lem self }
        ensures few { result < u32.MAX }
    {
        (self.whole / MINUTE).min(MOST_MINUTES) as u32
    }

    /// How far to the right this minute is, counted from the first moment.
    pub(crate) fn x_of_minute(self, minute: u32) -> u64
        ensures { result ≡ x_of_minute self minute }
    {
        LEFT + scaled(MINUTE * u64::from(minute), self.whole, self.across)
    }

    /// How many minutes it is from one line to the next: 1 to 4, or a multiple of 5. Their lines are at least
    /// some 60 units apart.
    pub(crate) fn minute_step(self) -> u64
        ensures value { result ≡ minute_step_lem self }
        ensures some { 0 < result }
    {
        let least = (u64::from(self.minutes()) * 120 / u64::from(self.across.max(1))).max(1);
        if least < 5 { least } else { least / 5 * 5 }
    }

    /// How many floors it is from one floor with a label to the next: labels are at least some 16 units
    /// apart.
    pub(crate) fn floor_step(self) -> u64
        ensures value { result ≡ floor_step_lem self }
        ensures some { 0 < result }
    {
        u64::from(self.floors) * 16 / u64::from(self.up.max(1)) + 1
    }
}
