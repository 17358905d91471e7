//! Work for a stopwatch, in the parts that its words name: `codec`, `board`, `heap`, `sweep`, `steps`; without words all of
//! them. What was done goes to standard output, and the times of the fastest rounds to standard error.
#![tactic(auto)]

mod board;
mod codec;
mod draws;
mod fastest;
mod heap;
mod steps;
mod sweep;

use command_line::arguments;
use std::io;
use std::thread::Threads;
use std::time::Clock;

// The parts, in the order in which they are done.
const PARTS: [&str; 5] = ["codec", "board", "heap", "sweep", "steps"];

fn main(rt: HostRuntime) -> io::Result<()> {
    let Ok(words) = arguments(&rt) else {
        return println!(rt; "no words");
    };
    for part in PARTS {
        if words.len() < 2 || words.iter().skip(1).any(|word| word.as_str() == part) {
            time_part(&rt, &rt, part)?;
        }
    }
    Ok(())
}

// Times a part; a sweep has workers, whose threads are those of the other handle.
fn time_part<T: Threads + Sync + Clock>(
    rt: &HostRuntime,
    threads: &T,
    part: &str,
) -> io::Result<()> {
    match part {
        "codec" => codec::time_bounds(rt),
        "board" => board::time_marks(rt),
        "heap" => heap::time_heaps(rt),
        "sweep" => sweep::time_sweeps(rt, threads),
        _ => steps::time_all(rt),
    }
}
