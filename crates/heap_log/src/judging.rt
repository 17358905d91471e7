//! Events of a log, judged one after another.

ghost use Rattle.std.specs.Prelude.{◌≡◌, ◌<◌, ◌^◌, IfErr, IfOk, OnErr, length};
ghost use Rattle.std.specs.List.{All};
ghost use Rattle.log_text.specs.Log.{IsListedEvent, IsValidEvent};
ghost use Rattle.machine_steps.specs.Safety.{FitsTypes, IsSafe};
ghost use Rattle.heap_log.specs.Judged.{AgreesUnused, FitsEvent, HasBegun, IsFound, IsVerdict};

use crate::laws::safe_log_law;
use crate::seeing::see;
use crate::tallying::tally;
use crate::verdict::{Difference, Verdict};
use heap_machine::{Followed, Machine, MachineFault, RevokerFollowed, Stepper};
use host_memory::Global;
use log_text::Event;
use trace_text::Command;

// Tells what the type of a command says of its numbers, for the law `logs`. Nothing is done.
fn fit_command(command: Command)
    ensures { FitsTypes command }
{
    let _ = command;
}

// The same of an event.
fn fit(event: Event)
    ensures { FitsEvent event }
{
    if let Event::Done { command, .. } = event {
        fit_command(command);
    }
}

/// Judges one event on a machine that has done all before it.
pub fn follow_event<S: Stepper>(
    stepper: &S,
    alloc: Global,
    machine: &mut Machine,
    event: Event,
) -> Result<Option<Difference>, MachineFault>
    requires ready { S.ready }
    requires valid { IsValidEvent event }
    ensures found { IfOk result (λ found. IsFound machine.old.state event found machine.new.state) }
    ensures memory { IfErr result (λ fault. fault ≡ MachineFault.Memory) }
    ensures still { OnErr result (machine.new ≡ machine.old) }
    ensures safe { IsSafe machine.old.state → IsSafe machine.new.state }
{
    match event {
        Event::Done { command, answer } => {
            match stepper.follow(machine, alloc, command, answer)? {
                Followed::Agrees => Ok(None),
                Followed::Differs(why) => Ok(Some(Difference::Answer(why))),
            }
        }
        Event::Revoked { command, answer } => match machine.revoke_as(command, answer) {
            RevokerFollowed::Agrees => Ok(None),
            RevokerFollowed::MustBe(reply) => Ok(Some(Difference::Step(reply))),
        },
        Event::Seen {
            address,
            tag,
            bytes,
        } => Ok(see(machine, address, tag, bytes)),
    }
}

/// Judges the events of a log on a machine in any state. The machine does each command as it was answered, up to the
/// first event that may not happen. Where memory runs out, it has done the commands before.
pub fn judge<S: Stepper>(
    stepper: &S,
    alloc: Global,
    machine: &mut Machine,
    events: &[(u32, Event)],
) -> Result<Verdict, MachineFault>
    requires ready { S.ready }
    requires valid { All IsListedEvent events.now }
    requires count { length events.now < 2 ^ 32 }
    ensures verdict { IfOk result (λ verdict. IsVerdict machine.old.state events.now verdict machine.new.state) }
    ensures memory { IfErr result (λ fault. fault ≡ MachineFault.Memory) }
    ensures begun { OnErr result (HasBegun machine.old.state events.now machine.new.state) }
    ensures safe { IsSafe machine.old.state → IsSafe machine.new.state }
    ensures unused { IfOk result (λ verdict. IsSafe machine.old.state → AgreesUnused machine.old.state events.now verdict) }
{
    safe_log_law();
    for (count, (line, event)) in events.iter().enumerate() {
        fit(*event);
        if let Some(difference) = follow_event(stepper, alloc, machine, *event)? {
            return Ok(Verdict::Differs {
                line: *line,
                count,
                difference,
            });
        }
    }
    Ok(Verdict::Agrees(tally(events)))
}
