//! How far a search may go.

ghost use Rattle.std.specs.Prelude.{◌≡◌, ◌≤◌, ◌^◌, IfSome, None};

/// How far a search may go: how many rounds it makes at most, and how many partial tours each of its pricings
/// tries at most. Each is 1 to 10^18.
#[derive(Clone, Copy)]
pub struct Limits {
    rounds: u64,
    most_tours: u64,
    ghost range: { ((1 ≤ rounds) × (rounds ≤ 10 ^ 18)) × ((1 ≤ most_tours) × (most_tours ≤ 10 ^ 18)) },
}

impl Limits {
    /// These limits, where each is in its range.
    pub fn new(rounds: u64, most_tours: u64) -> Option<Limits>
        ensures rounds { IfSome result (λ limits. limits.rounds ≡ rounds) }
        ensures most_tours { IfSome result (λ limits. limits.most_tours ≡ most_tours) }
        ensures none { result ≡ None
            → (1 ≤ rounds) × (rounds ≤ 10 ^ 18) → (1 ≤ most_tours) × (most_tours ≤ 10 ^ 18) → ⊥ }
    {
        let range = 1..=1_000_000_000_000_000_000;
        if range.contains(&rounds) && range.contains(&most_tours) {
            Some(Limits { rounds, most_tours })
        } else {
            None
        }
    }

    /// How many rounds at most.
    pub fn rounds(self) -> u64
        ensures value { result ≡ self.rounds }
        ensures range { (1 ≤ result) × (result ≤ 10 ^ 18) }
    {
        self.rounds
    }

    /// How many partial tours at most in each pricing.
    pub fn most_tours(self) -> u64
        ensures value { result ≡ self.most_tours }
        ensures range { (1 ≤ result) × (result ≤ 10 ^ 18) }
    {
        self.most_tours
    }
}
