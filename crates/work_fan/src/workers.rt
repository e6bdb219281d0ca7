//! The jobs of one call, done by several workers.
ghost use Rattle.std.specs.Prelude.{◌≡◌, ℕ, ◌<◌, ◌≤◌, [], length, replicate, All, Contains, IfOk, OnOk};
ghost use Rattle.std.specs.Prelude.{IsSome, IsTrue, slice_get, slice_index_or};
ghost use Rattle.std.specs.List.{filter_map};
ghost use denote.Param.Send.{IsSync, IsSend};
ghost use Rattle.work_fan.specs.Line.{times};
ghost use Rattle.work_fan.specs.Work.{Finished, IsAnswer, SameSeat, Serving, Starts, jobs_of};

use crate::line::{JobLine, JobSeat};
use byte_streams::Gate;
use std::alloc::{AllocError, Global};
use std::marker::{Send, Sync};
use std::thread::{Threads, join_mut};

/// Jobs, numbered from 0, that can be done in any order, each at any desk that serves them.
///
/// A desk is what one worker works with, as its scratch memory.
pub trait Jobs: Sync {
    type Desk: Send;

    type Answer: Send + Drop;

    /// How many jobs there are.
    ghost number: { Self → ℕ };

    /// This desk serves these jobs.
    ghost serves: { Self → Self.Desk → Type 0 };

    /// This is a right answer of job k.
    ghost is_right: { Self → ℕ → Self.Answer → Type 0 };

    /// This is the answer of a job that was not told to stop.
    ghost is_done: { Self → Self.Answer → Type 0 };

    fn count(&self) -> u32
        ensures { result ≡ number self.now };

    /// Does job `k`, or what little it may where the work may not go on. The desk serves the jobs afterwards
    /// too, also where memory ran out.
    fn work(
        &self,
        k: u32,
        may_go_on: bool,
        desk: &mut Self::Desk,
    ) -> Result<Self::Answer, AllocError>
        requires job { k < number self.now }
        requires desk { serves self.now desk.old }
        ensures answer { IfOk result (is_right self.now k) }
        ensures done { IsTrue may_go_on → IfOk result (is_done self.now) }
        ensures desk { serves self.now desk.new };
}

/// A job that was done, with its answer.
#[derive(Drop)]
pub struct Done<A> {
    pub job: u32,
    pub answer: A,
}

// What a worker, or some workers together, drew and have done.
#[derive(Drop)]
struct Worker<A> {
    seat: JobSeat,
    done: Vec<Done<A>>,
}

// What the threads of one call take.
#[derive(Drop)]
struct ThreadsOf<'a, R: Threads, G: Gate + Sync> {
    rt: &'a R,
    alloc: Global,
    gate: &'a G,
}

// Draws jobs from the line, and does them one after another, until none is left.
fn work_through<D, A: Drop, J: Jobs<Desk = D, Answer = A>, G: Gate>(
    line: &JobLine,
    jobs: &J,
    gate: &G,
    worker: &mut Worker<A>,
    desk: &mut D,
) -> Result<(), AllocError>
    requires jobs { line.now.count ≡ J.number jobs.now }
    requires worker { Starts line.now 1 worker.old }
    requires desk { J.serves jobs.now desk.old }
    ensures done { OnOk result (Finished (IsAnswer (G.never_stops gate.now) (J.is_right jobs.now)
        (J.is_done jobs.now)) line.now.count worker.new) }
    ensures seat { SameSeat worker.old worker.new }
    ensures desk { J.serves jobs.now desk.new }
{
    while let Some(job) = line.draw(&mut worker.seat) {
        gate.enter(job);
        let answer = jobs.work(job, gate.may_go_on(), desk)?;
        worker.done.push(Done { job, answer })?;
    }
    Ok(())
}

// The worker of a desk draws from the line, in a thread of its own where one can be made, and this thread
// waits.
fn work_aside<
    R: Threads,
    D: Send,
    A: Send + Drop,
    J: Jobs<Desk = D, Answer = A> + Sync,
    G: Gate + Sync,
>(
    rt: &R,
    line: &JobLine,
    jobs: &J,
    gate: &G,
    worker: &mut Worker<A>,
    desk: &mut D,
) -> Result<(), AllocError>
    requires jobs { line.now.count ≡ J.number jobs.now }
    requires worker { Starts line.now 1 worker.old }
    requires desk { J.serves jobs.now desk.old }
    ensures done { OnOk result (Finished (IsAnswer (G.never_stops gate.now) (J.is_right jobs.now)
        (J.is_done jobs.now)) line.now.count worker.new) }
    ensures seat { SameSeat worker.old worker.new }
    ensures desk { J.serves jobs.now desk.new }
{
    let mut work = || -> Result<(), AllocError>
        requires threads { IsSync J.row × IsSync G.row × IsSend D.row × IsSend A.row }
        requires jobs { line.now.count ≡ J.number jobs.now }
        requires worker { Starts line.now 1 worker.now }
        requires desk { J.serves jobs.now desk.now }
        ensures done { OnOk result
            (Finished (IsAnswer (G.never_stops gate.entry.now) (J.is_right jobs.entry.now)
            (J.is_done jobs.entry.now)) line.entry.now.count worker.exit.now) }
        ensures seat { SameSeat worker.entry.now worker.exit.now }
        ensures desk { J.serves jobs.entry.now desk.exit.now }
    { work_through(line, jobs, gate, worker, desk) };
    join_mut(rt, &mut work, &mut || {}).0
}

// The worker of each desk draws from the line, in a thread of its own where one can be made.
//
// This thread starts them all and waits. If it drew jobs too, some schedulers (Linux's among them) would put
// a thread that it starts behind it, on the same processor, for milliseconds while others are idle.
#[cycle(desks)]
fn work_at<
    R: Threads,
    D: Send,
    A: Send + Drop,
    J: Jobs<Desk = D, Answer = A> + Sync,
    G: Gate + Sync,
>(
    rt: &R,
    alloc: Global,
    line: &JobLine,
    jobs: &J,
    gate: &G,
    worker: &mut Worker<A>,
    desks: &mut [D],
) -> Result<(), AllocError>
    requires jobs { line.now.count ≡ J.number jobs.now }
    requires worker { Starts line.now (length desks.old) worker.old }
    requires desks { Serving (J.serves jobs.now) desks.old }
    ensures done { OnOk result (Finished (IsAnswer (G.never_stops gate.now) (J.is_right jobs.now)
        (J.is_done jobs.now)) line.now.count worker.new) }
    ensures seat { SameSeat worker.old worker.new }
    ensures desks { All (J.serves jobs.now) desks.new }
{
    if desks.len() == 1 {
        return work_aside(rt, line, jobs, gate, worker, &mut desks[0]);
    }
    let (first, rest) = desks.split_at_mut(1);
    let mut other = Worker {
        seat: line.split(&mut worker.seat, 1),
        done: Vec::new(alloc),
    };
    let threads = ThreadsOf { rt, alloc, gate };
    let (mine, theirs) = first_and_rest(
        &threads,
        line,
        jobs,
        worker,
        rest,
        &mut other,
        &mut first[0],
    );
    let Worker { seat, mut done } = other;
    line.join(&mut worker.seat, seat);
    mine?;
    theirs?;
    worker.done.append(&mut done)?;
    Ok(())
}

// A separate function from `work_at`, so that what the closures require is what this function is given.
#[cycle(desks)]
fn first_and_rest<
    R: Threads,
    D: Send,
    A: Send + Drop,
    J: Jobs<Desk = D, Answer = A> + Sync,
    G: Gate + Sync,
>(
    threads: &ThreadsOf<R, G>,
    line: &JobLine,
    jobs: &J,
    worker: &mut Worker<A>,
    rest: &mut [D],
    other: &mut Worker<A>,
    first: &mut D,
) -> (Result<(), AllocError>, Result<(), AllocError>)
    requires jobs { line.now.count ≡ J.number jobs.now }
    requires worker { Starts line.now (length rest.old) worker.old }
    requires rest { Serving (J.serves jobs.now) rest.old }
    requires other { Starts line.now 1 other.old }
    requires first { J.serves jobs.now first.old }
    ensures mine { OnOk result.0 (Finished (IsAnswer (G.never_stops threads.now.gate.now)
        (J.is_right jobs.now) (J.is_done jobs.now)) line.now.count worker.new) }
    ensures theirs { OnOk result.1 (Finished (IsAnswer (G.never_stops threads.now.gate.now)
        (J.is_right jobs.now) (J.is_done jobs.now)) line.now.count other.new) }
    ensures seats { SameSeat worker.old worker.new × SameSeat other.old other.new }
    ensures desks { All (J.serves jobs.now) rest.new × J.serves jobs.now first.new }
{
    let (rt, alloc, gate) = (threads.rt, threads.alloc, threads.gate);
    let mut mine = || -> Result<(), AllocError>
        requires threads { IsSync J.row × IsSync G.row × IsSend D.row
            × IsSend A.row }
        requires jobs { line.now.count ≡ J.number jobs.now }
        requires worker { Starts line.now (length rest.now) worker.now }
        requires desks { Serving (J.serves jobs.now) rest.now }
        ensures done { OnOk result
            (Finished (IsAnswer (G.never_stops gate.entry.now) (J.is_right jobs.entry.now)
            (J.is_done jobs.entry.now)) line.entry.now.count worker.exit.now) }
        ensures seat { SameSeat worker.entry.now worker.exit.now }
        ensures desks { All (J.serves jobs.entry.now) rest.exit.now }
    { work_at(rt, alloc, line, jobs, gate, worker, rest) };
    let mut theirs = || -> Result<(), AllocError>
        requires threads { IsSync J.row × IsSync G.row × IsSend D.row × IsSend A.row }
        requires jobs { line.now.count ≡ J.number jobs.now }
        requires worker { Starts line.now 1 other.now }
        requires desk { J.serves jobs.now first.now }
        ensures done { OnOk result
            (Finished (IsAnswer (G.never_stops gate.entry.now) (J.is_right jobs.entry.now)
            (J.is_done jobs.entry.now)) line.entry.now.count other.exit.now) }
        ensures seat { SameSeat other.entry.now other.exit.now }
        ensures desk { J.serves jobs.entry.now first.exit.now }
    { work_through(line, jobs, gate, other, first) };
    let (theirs, mine) = join_mut(rt, &mut theirs, &mut mine);
    (mine, theirs)
}

// The worker of each desk draws from the line: a lone one in this thread, several in threads of their own.
fn work_with<
    R: Threads,
    D: Send,
    A: Send + Drop,
    J: Jobs<Desk = D, Answer = A> + Sync,
    G: Gate + Sync,
>(
    rt: &R,
    alloc: Global,
    line: &JobLine,
    jobs: &J,
    gate: &G,
    worker: &mut Worker<A>,
    desks: &mut [D],
) -> Result<(), AllocError>
    requires jobs { line.now.count ≡ J.number jobs.now }
    requires worker { Starts line.now (length desks.old) worker.old }
    requires desks { Serving (J.serves jobs.now) desks.old }
    ensures done { OnOk result (Finished (IsAnswer (G.never_stops gate.now) (J.is_right jobs.now)
        (J.is_done jobs.now)) line.now.count worker.new) }
    ensures seat { SameSeat worker.old worker.new }
    ensures desks { All (J.serves jobs.now) desks.new }
{
    if desks.len() == 1 {
        return work_through(line, jobs, gate, worker, &mut desks[0]);
    }
    work_at(rt, alloc, line, jobs, gate, worker, desks)
}

// As many empty places as there are jobs.
fn empty_places<A: Drop>(alloc: Global, count: usize) -> Result<Vec<Option<A>>, AllocError>
    ensures { IfOk result (λ places. places.items ≡ replicate count None) }
{
    let mut places = Vec::new(alloc);
    for _place in 0..count {
        places.push(None)?;
    }
    Ok(places)
}

// Puts each answer into the place of its job.
fn place_all<A: Drop>(places: &mut Vec<Option<A>>, mut done: Vec<Done<A>>)
    requires { All (λ d. d.job < length places.old.items) done.items }
    ensures count { length places.new.items ≡ length places.old.items }
    ensures each { (k : ℕ) → 0 < times k (jobs_of done.items)
        → IsSome (slice_index_or places.new.items k None) }
    ensures from { places.old.items ≡ replicate (length places.old.items) None
        → (k : ℕ) (a : A) → slice_index_or places.new.items k None ≡ Some a
        → Contains done.items (record { job = k; answer = a }) }
{
    while let Some(Done { job, answer }) = done.pop() {
        places[job as usize] = Some(answer);
    }
}

// The answers that there are, in order.
fn taken_out<A: Drop>(alloc: Global, places: Vec<Option<A>>) -> Result<Vec<A>, AllocError>
    ensures { IfOk result (λ answers. answers.items ≡ filter_map (λ place. place) places.items) }
{
    places.into_iter().filter_map(|place| place).collect(alloc)
}

/// The answers in the order of their jobs, each of which was done: in place `k` stands an answer of job `k`.
///
/// Where a job was done more than once, one of its answers stands there. It fails only where there is no
/// memory left.
pub fn in_order<A: Drop>(
    alloc: Global,
    count: u32,
    done: Vec<Done<A>>,
) -> Result<Vec<A>, AllocError>
    requires range { All (λ d. d.job < count) done.items }
    requires each { (k : ℕ) → k < count → 0 < times k (jobs_of done.items) }
    ensures count { IfOk result (λ answers. length answers.items ≡ count) }
    ensures from { IfOk result (λ answers.
        (k : ℕ) (a : A) → slice_get answers.items k ≡ Some a
        → Contains done.items (record { job = k; answer = a })) }
{
    let mut places = empty_places(alloc, count as usize)?;
    place_all(&mut places, done);
    taken_out(alloc, places)
}

/// Does all jobs, with one worker for each desk, and gives their answers: in place `k` stands a right answer
/// of job `k`.
///
/// The workers draw their jobs from one line: a lone one in this thread, several in threads of their own
/// where they can be made. Before a job begins, `gate` is told of it, and asked whether the work may go on:
/// where it never stops the work, all jobs are done. It needs 1 to 16 desks, each of which serves the jobs,
/// and serves them afterwards too, also where memory ran out.
pub fn fan<J: Jobs, G: Gate + Sync>(
    rt: &impl Threads,
    alloc: Global,
    jobs: &J,
    desks: &mut [J::Desk],
    gate: &G,
) -> Result<Vec<J::Answer>, AllocError>
    requires { Serving (J.serves jobs.now) desks.old }
    ensures count { IfOk result (λ answers. length answers.items ≡ J.number jobs.now) }
    ensures right { IfOk result (λ answers.
        (k : ℕ) (a : J.Answer) → slice_get answers.items k ≡ Some a → J.is_right jobs.now k a) }
    ensures done { G.never_stops gate.now
        → IfOk result (λ answers. All (J.is_done jobs.now) answers.items) }
    ensures desks { All (J.serves jobs.now) desks.new }
{
    let (line, seat) = JobLine::begin(alloc, jobs.count(), desks.len() as u32)?;
    let mut all = Worker {
        seat,
        done: Vec::new(alloc),
    };
    let worked = work_with(rt, alloc, &line, jobs, gate, &mut all, desks);
    let Worker { seat, done } = all;
    line.close(seat);
    worked?;
    in_order(alloc, jobs.count(), done)
}

/// The same, by the calling thread alone, at the first of the desks.
pub fn fan_alone<J: Jobs, G: Gate>(
    alloc: Global,
    jobs: &J,
    desks: &mut [J::Desk],
    gate: &G,
) -> Result<Vec<J::Answer>, AllocError>
    requires { Serving (J.serves jobs.now) desks.old }
    ensures count { IfOk result (λ answers. length answers.items ≡ J.number jobs.now) }
    ensures right { IfOk result (λ answers.
        (k : ℕ) (a : J.Answer) → slice_get answers.items k ≡ Some a → J.is_right jobs.now k a) }
    ensures done { G.never_stops gate.now
        → IfOk result (λ answers. All (J.is_done jobs.now) answers.items) }
    ensures desks { All (J.serves jobs.now) desks.new }
{
    let (line, seat) = JobLine::begin(alloc, jobs.count(), 1)?;
    let mut all = Worker {
        seat,
        done: Vec::new(alloc),
    };
    let worked = work_through(&line, jobs, gate, &mut all, &mut desks[0]);
    let Worker { seat, done } = all;
    line.close(seat);
    worked?;
    in_order(alloc, jobs.count(), done)
}
