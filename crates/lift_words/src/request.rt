//! What the words ask for.
ghost use Rattle.std.specs.Prelude.{◌≡◌, ◌≤◌, ◌^◌, IfSome};
ghost use Rattle.lift_words.specs.Taken.{AreDayOptions, most_claims, without_certificates};

use search_model::Limits;
use work_fan::Workers;

/// What the words of the command line ask for.
#[derive(Clone, Copy)]
pub enum Request {
    /// `solve`: the case of the input is to be solved.
    Solve(SolveOptions),
    /// `check`: the answer of the input is to be checked.
    Check(CheckOptions),
    /// `day`: the day of the input is to be run.
    Day(DayOptions),
    /// `report`: the service of the day of the input is to be reported.
    Report(SearchOptions),
    /// `make`: a generated case is to be written.
    Make(CaseSizes),
    /// `make --run`: a generated case is to be solved.
    Run(RunOptions),
    /// `table`: the table of travel times of the input is to be judged.
    Table,
    /// `whatif`: it is to be said what the last call of the input costs with each car.
    WhatIf(SearchOptions),
    /// `banks`: the days of several banks of cars of the input are to be run.
    Banks(SearchOptions),
    /// `root`: it is to be said what prices at the root of the case of the input can prove.
    Root(RootOptions),
    /// `audit`: the log of the day of the input is to be audited.
    Audit(CheckOptions),
}

/// The options of `solve`.
#[derive(Clone, Copy)]
pub struct SolveOptions {
    /// `--rounds` and `--moves`: at most this many rounds, and at most this many partial tours in one
    /// pricing, each 1 to 10^18. The defaults are 2000 and 75000.
    pub limits: Limits,
    /// `--workers`: this many threads, 1 to 16. The default is 1.
    pub workers: Workers,
    /// `--claims`: the claims of the certificate sum to at most this, 1 to 10^10. The default is 10^9.
    pub claims: u64,
    /// `--brief`: no certificate is to be written.
    pub brief: bool,
    /// `--progress`: how far the search has come is to be told.
    pub progress: bool,
}

/// The options of `check` and `audit`.
#[derive(Clone, Copy)]
pub struct CheckOptions {
    /// `--workers`: this many threads, 1 to 16. The default is 1.
    pub workers: Workers,
}

/// The options of `day`.
#[derive(Clone, Copy)]
pub struct DayOptions {
    /// The limits of each search, and the workers.
    pub search: SearchOptions,
    /// `--claims`: the claims of each certificate sum to at most this, 1 to 10^10. The default is 10^9.
    pub claims: u64,
    /// `--certs`: each plan is to be written with its certificate.
    pub certs: bool,
    /// `--progress`: how far the day has come is to be told.
    pub progress: bool,
}

/// The options of `report`, `whatif` and `banks`, and some of `day`: the limits of each search, and the
/// workers.
#[derive(Clone, Copy)]
pub struct SearchOptions {
    /// `--rounds` and `--moves`: at most this many rounds, and at most this many partial tours in one
    /// pricing, each 1 to 10^18. The defaults are 2000 and 75000.
    pub limits: Limits,
    /// `--workers`: this many threads, 1 to 16. The default is 1.
    pub workers: Workers,
}

impl SearchOptions {
    /// The same for a day without certificates.
    pub fn without_certificates(self) -> DayOptions
        ensures { result ≡ without_certificates self }
    {
        DayOptions {
            search: self,
            claims: 1,
            certs: false,
            progress: false,
        }
    }
}

impl DayOptions {
    /// What the claims of each certificate may sum to, where certificates are wanted.
    pub fn most_claims(self) -> Option<u64>
        ensures value { result ≡ most_claims self }
        ensures within { AreDayOptions self → IfSome result (λ most. most ≤ 10 ^ 10) }
    {
        if self.certs { Some(self.claims) } else { None }
    }
}

/// The options of `root`.
#[derive(Clone, Copy)]
pub struct RootOptions {
    /// `--rounds` and `--moves`: this many turns at the root, 1 to 31, and at most this many partial tours
    /// in one pricing, and as many partial pairings, 1 to 10^18. The defaults are 20 and 75000.
    pub limits: Limits,
}

/// The sizes of a generated case. `make` takes `--rounds` and `--moves` too, which change nothing without
/// `--run`.
#[derive(Clone, Copy)]
pub struct CaseSizes {
    /// `--number`: the number that the case is made from, any of 64 bits. The default is 1.
    pub number: u64,
    /// `--floors`: 2 to 64. The default is 12.
    pub floors: u32,
    /// `--cars`: 1 to 8. The default is 4.
    pub cars: u32,
    /// `--calls`: 0 to 64. The default is 20.
    pub calls: u32,
}

/// The options of `make --run`.
#[derive(Clone, Copy)]
pub struct RunOptions {
    /// The sizes of the case.
    pub sizes: CaseSizes,
    /// `--rounds` and `--moves`: at most this many rounds, and at most this many partial tours in one
    /// pricing, each 1 to 10^18. The defaults are 2000 and 75000.
    pub limits: Limits,
}
