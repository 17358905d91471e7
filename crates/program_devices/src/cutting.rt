//! How passes are cut, as the words of a program ask.

ghost use Rattle.std.specs.Prelude.{◌≡◌};
ghost use Rattle.command_line.specs.Asked.{AreWithinLimits};

use command_line::Options;
use sweep_masks::Cutting;

/// How the options cut the sweeps.
pub fn cutting_of(options: Options) -> Cutting
    requires { AreWithinLimits options }
    ensures { result ≡ record { workers = options.workers; pages_per_task = options.pages_per_task } }
{
    Cutting::new(options.workers, options.pages_per_task).unwrap()
}
