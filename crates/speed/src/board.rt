//! Ten million marks of one word of a board, and as many steps on a bare atomic word.

ghost use Rattle.std.specs.Prelude.{◌≡◌};
ghost use Rattle.mark_board.specs.Board.{IsOf};

use mark_board::{Board, MarkSeat};
use std::io;
use std::sync::atomic::{AtomicU64, Ordering};
use std::time::{CpuClock, Duration};

const MARKS: u32 = 10_000_000;

pub(crate) fn time_marks(rt: &HostRuntime) -> io::Result<()> {
    let Ok((board, seat)) = Board::new(rt.alloc(), u64::BITS, 1) else {
        return println!(rt; "want of memory");
    };
    let start = rt.thread_cpu_time()?;
    let marks = sum_of_marks(&board, seat);
    let between = rt.thread_cpu_time()?;
    let steps = sum_of_steps();
    let end = rt.thread_cpu_time()?;
    report(rt, "marks", marks, between.saturating_sub(start))?;
    report(rt, "bare steps", steps, end.saturating_sub(between))
}

fn report(rt: &HostRuntime, name: &str, sum: u64, time: Duration) -> io::Result<()> {
    println!(rt; "{MARKS} {name}, sum {sum}")?;
    eprintln!(rt; "{name}: {} microseconds", time.as_micros())
}

// The k-th mask: one bit after the other.
fn mask(k: u32) -> u64 {
    1 << (k % u64::BITS)
}

// The sum of what the marks answer.
fn sum_of_marks(board: &Board, mut seat: MarkSeat) -> u64
    requires board { IsOf board.now seat }
    requires bits { board.now.bits ≡ 64 }
{
    let mut sum = 0u64;
    for k in 0..MARKS {
        sum = sum.wrapping_add(board.mark(&mut seat, 0, mask(k)));
    }
    sum
}

// The same on a word that no board keeps.
fn sum_of_steps() -> u64 {
    let word = AtomicU64::new(0);
    let mut sum = 0u64;
    for k in 0..MARKS {
        let mask = mask(k);
        sum = sum.wrapping_add(mask & !word.fetch_or(mask, Ordering::SeqCst));
    }
    sum
}
