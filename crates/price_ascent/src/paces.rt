//! How fast an ascent goes, and for how long.

/// What is rounded towards 0 where the newest reading goes into a direction.
#[derive(Clone, Copy)]
pub enum Rounding {
    /// The average.
    Average,
    /// By how much the average changes.
    Change,
}

/// How fast an ascent goes, and for how long. Directions and rates are fixed-point numbers, in parts of one.
#[derive(Clone, Copy)]
pub struct Pace {
    /// How often the prices are moved at most.
    pub moves: u32,
    /// How many parts make one.
    pub one: i64,
    /// The weight of the newest reading in the direction is 1 over this.
    pub newest_share: i64,
    /// How the direction is rounded.
    pub rounding: Rounding,
    /// The rate after a move that gained, in percent of the one before; it is two at most.
    pub up_percent: i64,
    /// The rate after a move that did not gain, in percent of the one before.
    pub down_percent: i64,
    /// By how much a sum that has arrived may be below the target, in thousandths of a cost unit.
    pub tolerance: i128,
    /// A gap counts for no more than this, in thousandths of a cost unit, so that no product of a step
    /// saturates.
    pub most_gap: i128,
}

impl Pace {
    /// The average of what a call lacked, in parts of one, with the newest reading, where it lacks this much.
    pub(crate) fn average(&self, before: i64, newest: i64) -> i64 {
        match self.rounding {
            Rounding::Average => {
                let others = before.saturating_mul(self.newest_share.saturating_sub(1));
                self.share_of(others.saturating_add(newest))
            }
            Rounding::Change => {
                before.saturating_add(self.share_of(newest.saturating_sub(before)))
            }
        }
    }

    /// The newest reading's share of a number.
    fn share_of(&self, number: i64) -> i64 {
        number.checked_div(self.newest_share).unwrap_or(0)
    }

    /// The rate after a move at this one.
    pub(crate) fn rate_after(&self, rate: i64, has_gained: bool) -> i64 {
        if has_gained {
            percent_of(self.up_percent, rate).min(self.one.saturating_mul(2))
        } else {
            percent_of(self.down_percent, rate)
        }
    }
}

/// This percentage of a number, rounded towards 0.
pub fn percent_of(percent: i64, number: i64) -> i64 {
    number.saturating_mul(percent) / 100
}
