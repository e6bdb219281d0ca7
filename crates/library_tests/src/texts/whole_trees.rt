//! A certificate that is read whole and checked at once, not piece by piece as the program does.

use crate::texts::makers::source_of;
use crate::texts::sized::have_sized_worths;
use byte_streams::{MemorySource, OpenGate};
use call_state::Snapshot;
use case_kit::{plan_in, snapshot_in};
use cert_checker::check;
use cert_text::read_cert;
use lift_text::LineReader;
use search_model::{Stated, Twig, Verdict};
use std::alloc::Global;
use std::thread::Threads;
use thread_crew::InThreads;
use work_fan::{Runtime, Workers};

/// Two cars, of which each may take the call; the first one is nearer.
const TWO_CARS: &[u8] = b"building 1
speed 2000
accel 1000
weights 1 1
floors 0 4000 8000 12000
car 5 8 1000 1000 500 500 all
car 3 8 1000 1000 500 500 all
end
snapshot 1
now 0
car 3 idle 3 0
car 5 idle 0 0
call 9 0 1 1 0 any
end
";

const TWO_LEAVES: &[u8] = b"certificate 1
split 9 5
leaf
price 9 7500000
worth 5 0 900
worth 3 0 900
leaf
price 9 15500000
worth 5 0 900
worth 3 0 900
end
";

/// A case, an answer and a certificate of it.
#[derive(Clone, Copy)]
struct Certified<'a> {
    snapshot: &'a Snapshot,
    stated: &'a Stated,
    twigs: &'a [Twig],
}

/// Whether this many workers say yes.
fn is_proved_by(rt: &impl Threads, alloc: Global, certified: Certified, workers: u32) -> bool {
    let Certified {
        snapshot,
        stated,
        twigs,
    } = certified;
    let cars = snapshot.building().cars().len();
    let fits = twigs.len() < 1000 && have_sized_worths(twigs) && stated.plan.tours().len() == cars;
    let Some(workers) = Workers::new(workers) else {
        return false;
    };
    if !fits {
        return false;
    }
    let runtime = Runtime {
        crew: &InThreads::new(rt),
        workers,
        alloc,
        gate: &OpenGate,
    };
    matches!(check(&runtime, snapshot, stated, twigs), Ok(Verdict::Yes))
}

/// Whether each number of workers says yes.
fn is_proved_by_all(rt: &impl Threads, alloc: Global, certified: Certified) -> bool {
    for workers in [1, 2, 3, 16] {
        if !is_proved_by(rt, alloc, certified, workers) {
            return false;
        }
    }
    true
}

/// Whether the certificate of the lines proves what is stated.
fn lines_prove(
    rt: &impl Threads,
    alloc: Global,
    lines: &mut LineReader<MemorySource>,
    snapshot: &Snapshot,
    stated: &Stated,
) -> bool {
    match read_cert(alloc, lines, snapshot) {
        Ok(tree) => {
            let twigs = tree.as_slice();
            let certified = Certified {
                snapshot,
                stated,
                twigs,
            };
            is_proved_by_all(rt, alloc, certified)
        }
        Err(_) => false,
    }
}

/// Whether the certificate of the source does.
fn source_proves(
    rt: &impl Threads,
    alloc: Global,
    source: &mut MemorySource,
    snapshot: &Snapshot,
    stated: &Stated,
) -> bool {
    match LineReader::new(alloc, source) {
        Ok(mut lines) => lines_prove(rt, alloc, &mut lines, snapshot, stated),
        Err(_) => false,
    }
}

/// Whether two leaves prove what is stated.
fn is_stated_proved(
    rt: &impl Threads,
    alloc: Global,
    snapshot: &Snapshot,
    stated: &Stated,
) -> bool {
    match source_of(alloc, TWO_LEAVES, 4096) {
        Some(mut source) => source_proves(rt, alloc, &mut source, snapshot, stated),
        None => false,
    }
}

/// Whether they prove that the cheapest plan costs 7500.
fn is_proved(rt: &impl Threads, alloc: Global, snapshot: &Snapshot) -> bool {
    match plan_in(alloc, "0:0 1 /") {
        Some(plan) => {
            let (cost, bound) = (7500, 7500);
            is_stated_proved(rt, alloc, snapshot, &Stated { plan, cost, bound })
        }
        None => false,
    }
}

fn is_case_proved(rt: &impl Threads, alloc: Global) -> bool {
    match snapshot_in(alloc, TWO_CARS) {
        Some(snapshot) => is_proved(rt, alloc, &snapshot),
        None => false,
    }
}

#[test]
fn a_tree_is_checked_at_once(rt: HostRuntime) {
    assert!(rt; is_case_proved(&rt, rt.alloc()));
}
