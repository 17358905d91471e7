//! The time of a part.

use std::io;
use std::time::{CpuClock, Duration};

/// How often each part is done, to take the fastest time.
pub const ROUNDS: u32 = 5;

/// The processor's time for the fastest of a part's rounds.
#[derive(Clone, Copy)]
pub struct Fastest {
    least: Duration,
}

impl Fastest {
    /// Before the first round.
    pub const NONE: Fastest = Fastest {
        least: Duration::MAX,
    };

    /// Takes in a round that has ended now.
    pub(crate) fn take_round(&mut self, rt: &impl CpuClock, start: Duration) -> io::Result<()> {
        let time = rt.thread_cpu_time()?.saturating_sub(start);
        self.least = self.least.min(time);
        Ok(())
    }

    pub(crate) fn microseconds(self) -> u128 {
        self.least.as_micros()
    }

    /// Nanoseconds for one of so many steps of a round.
    pub(crate) fn nanoseconds_a_step(self, steps: u64) -> u128 {
        self.least.as_nanos() / u128::from(steps.max(1))
    }
}
