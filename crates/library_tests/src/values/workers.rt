//! A line of jobs, and the workers that draw from it.

ghost use Rattle.std.specs.Prelude.{◌≤◌};

use byte_streams::{Gate, OpenGate};
use case_kit::Lookout;
use std::alloc::{AllocError, Global};
use std::sync::atomic::{AtomicU32, Ordering};
use std::thread::Threads;
use work_fan::{JobLine, Jobs, fan};

/// Whether each of two jobs is drawn and then none, in three draws.
fn draws_two(alloc: Global) -> bool {
    match JobLine::begin(alloc, 2, 1) {
        Ok((line, mut seat)) => {
            let is_drawn = line.draw(&mut seat) == Some(0)
                && line.draw(&mut seat) == Some(1)
                && line.draw(&mut seat).is_none();
            line.close(seat) == 3 && is_drawn
        }
        Err(_) => false,
    }
}

#[test]
fn draws_each_job_and_then_none(rt: HostRuntime) {
    assert!(rt; draws_two(rt.alloc()));
}

// Job k is answered by 10 + k. Desks only count what was done at them.
#[derive(Drop)]
struct Tens {
    count: u32,
}

impl Jobs for Tens {
    ghost use Rattle.std.specs.Prelude.{◌≡◌, ◌+◌, ◌≤◌};

    type Desk = u32;

    type Answer = u64;

    ghost number = { λ jobs. jobs.count };

    ghost serves = { λ _ desk. desk ≤ 100 };

    ghost is_right = { λ _ k answer. answer ≡ 10 + k };

    ghost is_done = { λ _ _. Unit {0} };

    fn count(&self) -> u32 {
        self.count
    }

    fn work(&self, k: u32, _may_go_on: bool, desk: &mut u32) -> Result<u64, AllocError> {
        *desk = (*desk + 1).min(100);
        Ok(10 + u64::from(k))
    }
}

// Three jobs that are their own gate. The gate notes each job that begins, and the job answers whether it was
// noted.
#[derive(Drop)]
struct Told {
    begun: AtomicU32,
}

fn bit_of(job: u32) -> u32 {
    match job {
        0 => 1,
        1 => 2,
        _ => 4,
    }
}

impl Gate for Told {
    ghost never_stops = { λ _. Unit {0} };

    fn enter(&self, job: u32) {
        self.begun.fetch_or(bit_of(job), Ordering::SeqCst);
    }

    fn may_go_on(&self) -> bool {
        true
    }
}

impl Jobs for Told {
    type Desk = u32;

    type Answer = bool;

    ghost number = { λ _. 3 };

    ghost serves = { λ _ _. Unit {0} };

    ghost is_right = { λ _ _ _. Unit {0} };

    ghost is_done = { λ _ _. Unit {0} };

    fn count(&self) -> u32 {
        3
    }

    fn work(&self, k: u32, _may_go_on: bool, _desk: &mut u32) -> Result<bool, AllocError> {
        Ok(self.begun.load(Ordering::SeqCst) & bit_of(k) != 0)
    }
}

/// Whether this many workers answer five jobs in their order.
fn answer_in_order(rt: &impl Threads, alloc: Global, workers: usize) -> bool
    requires { (1 ≤ workers) × (workers ≤ 16) }
{
    let mut desks = [0; 16];
    match fan(
        rt,
        alloc,
        &Tens { count: 5 },
        &mut desks[..workers],
        &OpenGate,
    ) {
        Ok(answers) => answers.as_slice() == [10, 11, 12, 13, 14].as_slice(),
        Err(_) => false,
    }
}

#[test]
fn answers_in_the_order_of_the_jobs(rt: HostRuntime) {
    for workers in [1, 3, 16] {
        assert!(rt; answer_in_order(&rt, rt.alloc(), workers));
    }
}

/// Whether each of three jobs finds that the gate was told of it.
fn is_told_before(rt: &impl Threads, alloc: Global) -> bool {
    let told = Told {
        begun: AtomicU32::new(0),
    };
    match fan(rt, alloc, &told, &mut [0, 0], &told) {
        Ok(found) => found.as_slice() == [true, true, true].as_slice(),
        Err(_) => false,
    }
}

#[test]
fn the_gate_is_told_of_a_job_before_it_begins(rt: HostRuntime) {
    assert!(rt; is_told_before(&rt, rt.alloc()));
}

/// Whether two workers do `count` jobs, and each that looks out is told of the others while it waits.
fn see_others(rt: &impl Threads, alloc: Global, count: u32, looker: Option<u32>) -> bool {
    let gate = Lookout::new(count == 3, looker);
    let is_done = fan(rt, alloc, &Tens { count }, &mut [0, 0], &gate).is_ok();
    is_done && gate.saw_all()
}

#[test]
fn two_workers_run_side_by_side(rt: HostRuntime) {
    assert!(rt; see_others(&rt, rt.alloc(), 2, None));
}

// No fixed share of the jobs passes all three runs: some worker has two jobs, and the one that it does first
// never sees the other.
#[test]
fn a_worker_that_is_held_leaves_the_rest_to_the_other(rt: HostRuntime) {
    for looker in 0..3 {
        assert!(rt;
            see_others(&rt, rt.alloc(), 3, Some(looker)),
            "job {looker} was not told of the others"
        );
    }
}
