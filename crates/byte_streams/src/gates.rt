//! A place where work can be watched, slowed before a job begins, or stopped.

ghost use Rattle.std.specs.Prelude.{IsTrue};

/// Where a search stands.
#[derive(Clone, Copy)]
pub struct SearchState {
    /// How many rounds were done.
    pub rounds: u64,
    /// How many nodes may still hold a cheaper plan.
    pub open_nodes: u64,
    /// The cost of the cheapest plan that was found, in cost units.
    pub cost: u64,
    /// No feasible plan costs less than this many cost units.
    pub bound: u64,
}

/// How far work has come.
#[derive(Clone, Copy)]
pub enum Progress {
    /// A search begins, with its start plan.
    Begins(SearchState),
    /// A round of a search was done.
    Goes(SearchState),
    /// A search has ended.
    Ends(SearchState),
    /// Pricings were made at once, which visited so many partial tours.
    Priced(u64),
    /// So many rows of a day were done, refused ones too.
    Rows(u32),
}

/// Told of each job before it begins, and of how far the work has come, and asked whether the work may go on.
/// It returns always, and of an answer only this depends on it: whether the work was ended early.
pub trait Gate {
    /// The work may go on whenever this gate is asked.
    ghost never_stops: { Self → Type 0 };

    /// Lets the job with this number begin.
    fn enter(&self, job: u32);

    /// Takes note of how far the work has come.
    fn tell(&self, _progress: Progress) {}

    /// Whether the work may go on.
    fn may_go_on(&self) -> bool
        ensures { never_stops self.now → IsTrue result };
}

/// A gate that does nothing and never stops the work.
#[derive(Clone, Copy, Default)]
pub struct OpenGate;

impl Gate for OpenGate {
    ghost never_stops = { λ _. Unit {0} };

    fn enter(&self, _job: u32) {}

    fn may_go_on(&self) -> bool {
        true
    }
}
