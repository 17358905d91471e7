//! Who does a revoker's steps.

ghost use Rattle.std.specs.Prelude.{◌≡◌, ◌∷◌, [], true, IfErr, IfOk, IfSome};
ghost use Rattle.std.specs.Vec.{vec_capacity};
ghost use Rattle.trace_text.specs.Command.{IsValid};
ghost use Rattle.revoker_steps.specs.Valid as allowed;
ghost use Rattle.revokers.specs.Acts.{HasRoom};
ghost use Rattle.revoker_runs.specs.Ways.{BarredDoes, DoesJust, MarkedDoes, StepsJust, StepsLooking, BarredPaints, BarredReleases, MarkedReleases, all_steps, barrier_acts, no_step, own_step, page_steps};

use heap_machine::{
    Machine, MachineFault, Reply, RevokerCommand, RevokerReply, RevokerTrap, Stepper,
};
use host_memory::Global;
use revokers::{Act, Barrier, Cornucopia, Reloaded};
use trace_text::Command;

/// Does what a plan's lines say, and tells each step of its own.
pub trait Revoker {
    ghost use Rattle.std.specs.Prelude.{Bool, List, Option};
    ghost use Rattle.trace_text.specs.declared.trace.Command.{Command};
    ghost use Rattle.heap_reply.specs.declared.reply.Reply.{Reply};
    ghost use Rattle.revoker_steps.specs.declared.command.RevokerCommand.{RevokerCommand};
    ghost use Rattle.revokers.specs.declared.acts.Act.{Act};

    // The step of its own that a command of the program is, if it is one.
    ghost own: { Command → Option RevokerCommand };

    // Whether a line may tell it to do this.
    ghost takes: { RevokerCommand → Bool };

    // What it did where it was told to do this.
    ghost does: { Self → RevokerCommand → List Act → Self → Type 0 };

    // What it did before a command of the program, and what that was answered.
    ghost steps: { Self → Command → List Act → Reply → Self → Type 0 };

    /// The step of the revoker that a command of the program is, if it is one.
    fn own_step(&self, command: Command) -> Option<RevokerCommand>
        requires { IsValid command }
        ensures value { result ≡ own command }
        ensures taken { IfSome result (λ step. allowed.IsValid step × takes step ≡ true) };

    /// Whether a line may tell it to do this.
    fn takes_step(&self, command: RevokerCommand) -> bool
        ensures { result ≡ takes command };

    /// Does a command of the program. `acts` is told what the revoker did before it.
    fn step<S: Stepper>(
        &mut self,
        stepper: &S,
        alloc: Global,
        command: Command,
        acts: &mut Vec<Act, Global>,
    ) -> Result<Reply, MachineFault>
        requires ready { S.ready }
        requires valid { IsValid command }
        requires none { acts.old.items ≡ [] }
        requires room { HasRoom 1057 acts.old }
        ensures steps { IfOk result (λ reply. steps self.old command acts.new.items reply self.new) }
        ensures memory { IfErr result (λ fault. fault ≡ MachineFault.Memory) }
        ensures kept { vec_capacity acts.new ≡ vec_capacity acts.old };

    /// Does what the revoker is told to, which `acts` is told.
    fn revoke(&mut self, command: RevokerCommand, acts: &mut Vec<Act, Global>)
        requires valid { allowed.IsValid command }
        requires taken { takes command ≡ true }
        requires none { acts.old.items ≡ [] }
        requires room { HasRoom 1057 acts.old }
        ensures does { does self.old command acts.new.items self.new }
        ensures kept { vec_capacity acts.new ≡ vec_capacity acts.old };
}

// Tells of a step.
fn tell(acts: &mut Vec<Act, Global>, command: RevokerCommand, reply: RevokerReply)
    requires none { acts.old.items ≡ [] }
    requires room { HasRoom 1057 acts.old }
    ensures told { acts.new.items ≡ record { command = command; reply = reply } ∷ [] }
    ensures kept { vec_capacity acts.new ≡ vec_capacity acts.old }
{
    acts.push_reserved(Act { command, reply });
}

impl Revoker for Machine {
    ghost own = { no_step };

    ghost takes = { all_steps };

    ghost does = { DoesJust };

    ghost steps = { StepsJust };

    fn own_step(&self, _: Command) -> Option<RevokerCommand> {
        None
    }

    fn takes_step(&self, _: RevokerCommand) -> bool {
        true
    }

    fn step<S: Stepper>(
        &mut self,
        stepper: &S,
        alloc: Global,
        command: Command,
        _: &mut Vec<Act, Global>,
    ) -> Result<Reply, MachineFault> {
        stepper.step(self, alloc, command)
    }

    fn revoke(&mut self, command: RevokerCommand, acts: &mut Vec<Act, Global>) {
        let reply = Machine::revoke(self, command);
        tell(acts, command, reply);
    }
}

// The step that a command is, of a revoker that does the passes of an epoch itself.
fn own_step_of(command: Command) -> Option<RevokerCommand>
    ensures value { result ≡ own_step command }
    ensures taken { IfSome result (λ step. allowed.IsValid step × page_steps step ≡ true) }
{
    match command {
        Command::Begin => Some(RevokerCommand::Paint),
        Command::End => Some(RevokerCommand::Release),
        _ => None,
    }
}

// Whether it is a step of a revoker that looks at whole pages.
fn is_page_step(command: RevokerCommand) -> bool
    ensures { result ≡ page_steps command }
{
    matches!(
        command,
        RevokerCommand::Paint | RevokerCommand::Visit { .. } | RevokerCommand::Release
    )
}

impl Revoker for Cornucopia {
    ghost own = { own_step };

    ghost takes = { page_steps };

    ghost does = { MarkedDoes };

    ghost steps = { StepsJust };

    fn own_step(&self, command: Command) -> Option<RevokerCommand> {
        own_step_of(command)
    }

    fn takes_step(&self, command: RevokerCommand) -> bool {
        is_page_step(command)
    }

    fn step<S: Stepper>(
        &mut self,
        stepper: &S,
        alloc: Global,
        command: Command,
        _: &mut Vec<Act, Global>,
    ) -> Result<Reply, MachineFault> {
        Cornucopia::step(self, stepper, alloc, command)
    }

    fn revoke(&mut self, command: RevokerCommand, acts: &mut Vec<Act, Global>) {
        match command {
            RevokerCommand::Paint => {
                let reply = self.start();
                tell(acts, command, reply);
            }
            RevokerCommand::Visit { page } => {
                let reply = self.visit(page);
                tell(acts, command, reply);
            }
            _ => release_marked(self, acts),
        }
    }
}

// Ends the epoch, or is trapped where none is open.
fn release_marked(revoker: &mut Cornucopia, acts: &mut Vec<Act, Global>)
    requires none { acts.old.items ≡ [] }
    requires room { HasRoom 1057 acts.old }
    ensures does { MarkedReleases revoker.old.state.heap.is_open revoker.old acts.new.items revoker.new }
    ensures kept { vec_capacity acts.new ≡ vec_capacity acts.old }
{
    if revoker.finish(acts).is_none() {
        tell(
            acts,
            RevokerCommand::Release,
            RevokerReply::Trap(RevokerTrap::NotOpen),
        );
    }
}

impl Revoker for Reloaded {
    ghost own = { own_step };

    ghost takes = { page_steps };

    ghost does = { BarredDoes };

    ghost steps = { StepsLooking };

    fn own_step(&self, command: Command) -> Option<RevokerCommand> {
        own_step_of(command)
    }

    fn takes_step(&self, command: RevokerCommand) -> bool {
        is_page_step(command)
    }

    fn step<S: Stepper>(
        &mut self,
        stepper: &S,
        alloc: Global,
        command: Command,
        acts: &mut Vec<Act, Global>,
    ) -> Result<Reply, MachineFault> {
        let stepped = Reloaded::step(self, stepper, alloc, command)?;
        tell_barrier(acts, stepped.barrier);
        Ok(stepped.reply)
    }

    fn revoke(&mut self, command: RevokerCommand, acts: &mut Vec<Act, Global>) {
        match command {
            RevokerCommand::Paint => paint_barred(self, acts),
            RevokerCommand::Visit { page } => {
                let reply = self.visit(page);
                tell(acts, command, reply);
            }
            _ => release_barred(self, acts),
        }
    }
}

// Tells what the barrier did.
fn tell_barrier(acts: &mut Vec<Act, Global>, barrier: Option<Barrier>)
    requires none { acts.old.items ≡ [] }
    requires room { HasRoom 1057 acts.old }
    ensures told { acts.new.items ≡ barrier_acts barrier }
    ensures kept { vec_capacity acts.new ≡ vec_capacity acts.old }
{
    let Some(Barrier { page, cleared }) = barrier else {
        return;
    };
    tell(
        acts,
        RevokerCommand::Visit { page },
        RevokerReply::Cleared { cleared },
    );
}

// Starts an epoch, or is trapped where one is open.
fn paint_barred(revoker: &mut Reloaded, acts: &mut Vec<Act, Global>)
    requires none { acts.old.items ≡ [] }
    requires room { HasRoom 1057 acts.old }
    ensures does { BarredPaints revoker.old.machine.state.heap.is_open revoker.old acts.new.items revoker.new }
    ensures kept { vec_capacity acts.new ≡ vec_capacity acts.old }
{
    if revoker.start(acts).is_none() {
        tell(
            acts,
            RevokerCommand::Paint,
            RevokerReply::Trap(RevokerTrap::Open),
        );
    }
}

// Ends the epoch, if it is the revoker's; else it does no more than it is told.
fn release_barred(revoker: &mut Reloaded, acts: &mut Vec<Act, Global>)
    requires none { acts.old.items ≡ [] }
    requires room { HasRoom 1057 acts.old }
    ensures does { BarredReleases revoker.old.is_started revoker.old acts.new.items revoker.new }
    ensures kept { vec_capacity acts.new ≡ vec_capacity acts.old }
{
    if revoker.finish(acts).is_none() {
        let reply = revoker.release();
        tell(acts, RevokerCommand::Release, reply);
    }
}
