//! Draws: numbers that follow from a number by a linear congruential generator (Knuth, The Art of Computer
//! Programming, volume 2), so that each run has the same ones.

ghost use Rattle.std.specs.Prelude.{◌≡◌, ◌%◌, ◌<◌};
ghost use Rattle.search_model.specs.Cases.{state_after, drawn_by};

/// Gives one number after another. The state is the first number, or what the last draw made of it.
#[derive(Drop)]
pub struct Draws {
    pub state: u64,
}

impl Draws {
    /// The factor of Knuth's generator for MMIX.
    const FACTOR: u64 = 6_364_136_223_846_793_005;

    /// The summand that goes with it.
    const SUMMAND: u64 = 1_442_695_040_888_963_407;

    /// The draws of a number.
    pub fn from_number(number: u64) -> Self
        ensures { result.state ≡ number }
    {
        Draws { state: number }
    }

    /// The next number: the top 32 bits of the next state.
    pub fn draw(&mut self) -> u32
        ensures state { self.new.state ≡ state_after self.old.state }
        ensures drawn { result ≡ drawn_by (state_after self.old.state) }
    {
        self.state = Self::FACTOR
            .wrapping_mul(self.state)
            .wrapping_add(Self::SUMMAND);
        (self.state >> 32) as u32
    }

    /// The next number, below a bound.
    pub fn pick(&mut self, below: u32) -> u32
        requires { 0 < below }
        ensures state { self.new.state ≡ state_after self.old.state }
        ensures drawn { result ≡ drawn_by (state_after self.old.state) % below }
        ensures below { result < below }
    {
        self.draw() % below
    }

    /// A place in a list of this many, by the next number.
    pub fn pick_place(&mut self, count: usize) -> usize
        requires { 0 < count }
        ensures state { self.new.state ≡ state_after self.old.state }
        ensures drawn { result ≡ drawn_by (state_after self.old.state) % count }
        ensures below { result < count }
    {
        self.draw() as usize % count
    }
}
