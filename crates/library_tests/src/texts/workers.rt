//! Workers that price, and that run the days of banks, side by side.

use crate::texts::words::put_words;
use byte_streams::{MemorySource, SureSink};
use case_kit::{Lookout, WORKED_CASE, watched_status_of};
use command_ends::Status;
use std::alloc::Global;
use std::thread::Threads;

/// A command for two workers, and how what it writes begins.
#[derive(Clone, Copy)]
struct Asked {
    words: &'static [&'static str],
    input: &'static [u8],
    begins: &'static [u8],
}

/// Two banks of one car each, with one call each.
const TWO_BANKS: &[u8] = b"banks 1
bank 1
building 1
speed 2000
accel 1000
weights 1 1
floors 0 4000 8000 12000
car 1 8 1000 1000 500 500 all
end
snapshot 1
now 0
car 1 idle 0 0
end
bank 2
building 1
speed 2000
accel 1000
weights 1 1
floors 0 4000 8000 12000
car 1 8 1000 1000 500 500 all
end
snapshot 1
now 0
car 1 idle 0 0
end
rows
bank,time,origin,destination,persons
1,0,0,1,1
2,0,0,1,1
";

/// Whether the program does what is asked of it with this source, where each job passes the gate.
fn does(
    rt: &impl Threads,
    alloc: Global,
    asked: Asked,
    words: &[String],
    source: &mut MemorySource,
    gate: &Lookout,
) -> bool {
    let Ok(mut sink) = SureSink::new(alloc, 1 << 17) else {
        return false;
    };
    let ended = watched_status_of(rt, alloc, words, source, &mut sink, gate);
    ended == Status::Done && sink.taken().starts_with(asked.begins)
}

fn does_with(
    rt: &impl Threads,
    alloc: Global,
    asked: Asked,
    words: &[String],
    gate: &Lookout,
) -> bool {
    match Vec::from_slice(alloc, asked.input) {
        Ok(bytes) => {
            let mut source = MemorySource::new(bytes, 4096, Vec::new(alloc));
            does(rt, alloc, asked, words, &mut source, gate)
        }
        Err(_) => false,
    }
}

fn two_do(rt: &impl Threads, alloc: Global, asked: Asked, gate: &Lookout) -> bool {
    let mut words = Vec::new(alloc);
    put_words(alloc, asked.words, &mut words) && does_with(rt, alloc, asked, &words, gate)
}

/// Whether it does so, and both jobs of a round began before either ended.
fn work_side_by_side(rt: &impl Threads, alloc: Global, asked: Asked) -> bool {
    let gate = Lookout::new(false, None);
    two_do(rt, alloc, asked, &gate) && gate.saw_all()
}

// Where one thread does both jobs of the first round, the one that it does first misses the other.
#[test]
fn two_workers_price_side_by_side(rt: HostRuntime) {
    let asked = Asked {
        words: &["lift", "solve", "--brief", "--workers", "2"],
        input: WORKED_CASE.as_bytes(),
        begins: b"answer 1\ncost 61000\nbound 61000\n",
    };
    assert!(rt; work_side_by_side(&rt, rt.alloc(), asked));
}

#[test]
fn two_workers_run_banks_side_by_side(rt: HostRuntime) {
    let asked = Asked {
        words: &["lift", "banks", "--workers", "2"],
        input: TWO_BANKS,
        begins: b"bank 1\nday 1\nrow 1 accepted\n",
    };
    assert!(rt; work_side_by_side(&rt, rt.alloc(), asked));
}
