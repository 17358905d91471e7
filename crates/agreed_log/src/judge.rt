//! A log's lines, judged one after another.

ghost use Rattle.std.specs.Prelude.{◌≡◌, ◌<◌, ◌+◌, ◌^◌, ℕ, [], length, IfSome};
ghost use Rattle.trace_text.specs.Command.{IsValid};
ghost use Rattle.trace_text.specs.Lines.{lines_of};
ghost use Rattle.log_text.specs.declared.event.Asked.TheVariants as told_asked;
ghost use Rattle.log_text.specs.Log.{IsValidAsked};
ghost use Rattle.machine_steps.specs.Safety.{IsSafe};
ghost use Rattle.heap_log.specs.Counting.{Grows, HasRoom};
ghost use Rattle.heap_log.specs.Judged.{tally_of};
ghost use Rattle.agreed_log.specs.Agreed.{HaveAgreed, IsAgreedLine, IsAnsweredEvent};

use crate::comparing::says_reply;
use heap_log::{Tally, count, count_event, follow_event};
use heap_machine::{Machine, Stepper, any_placement_law};
use heap_reply::ShortText;
use host_memory::Global;
use log_text::{Asked, asked_line, event_of_answer};
use trace_text::{Command, Line, split_line};

/// A machine that has done the events so far, what they come to, and room for the text of a reply.
#[derive(Drop)]
pub struct Judge {
    pub machine: Machine,
    pub tally: Tally,
    pub text: ShortText,
}

impl Judge {
    // Does a command, and compares its reply with what was told, which isn't read.
    fn compare<S: Stepper>(
        &mut self,
        stepper: &S,
        alloc: Global,
        command: Command,
        told: &Line<'_>,
    ) -> Option<()>
        requires ready { S.ready }
        requires valid { IsValid command }
        requires safe { IsSafe self.old.machine.state }
        requires room { HasRoom self.old.tally }
        ensures event { IfSome result (λ done. IsAnsweredEvent (told_asked.Command command) told.now self.old.machine.state self.new.machine.state self.old.tally self.new.tally) }
        ensures few { IfSome result (λ done. Grows self.old.tally self.new.tally) }
        ensures safe { IsSafe self.new.machine.state }
    {
        any_placement_law();
        let stepped = stepper.step(&mut self.machine, alloc, command);
        // Where it lies: a copy of a reply that was just written waits for the cache.
        let Ok(reply) = &stepped else {
            return None;
        };
        if !says_reply(told, reply, &mut self.text) {
            return None;
        }
        count(&mut self.tally, reply);
        Some(())
    }

    // Reads what was told, and does it: a malloc's answer may name another place than a machine would, and a granule is
    // looked at.
    fn read<S: Stepper>(
        &mut self,
        stepper: &S,
        alloc: Global,
        asked: Asked,
        told: &Line<'_>,
    ) -> Option<()>
        requires ready { S.ready }
        requires valid { IsValidAsked asked }
        requires safe { IsSafe self.old.machine.state }
        requires room { HasRoom self.old.tally }
        ensures event { IfSome result (λ done. IsAnsweredEvent asked told.now self.old.machine.state self.new.machine.state self.old.tally self.new.tally) }
        ensures few { IfSome result (λ done. Grows self.old.tally self.new.tally) }
        ensures safe { IsSafe self.new.machine.state }
    {
        let event = event_of_answer(asked, told)?;
        let Ok(None) = follow_event(stepper, alloc, &mut self.machine, event) else {
            return None;
        };
        count_event(&mut self.tally, &event);
        Some(())
    }

    // Judges what was asked and told.
    #[inline(always)]
    fn event<S: Stepper>(
        &mut self,
        stepper: &S,
        alloc: Global,
        asked: Asked,
        told: &Line<'_>,
    ) -> Option<()>
        requires ready { S.ready }
        requires valid { IsValidAsked asked }
        requires safe { IsSafe self.old.machine.state }
        requires room { HasRoom self.old.tally }
        ensures event { IfSome result (λ done. IsAnsweredEvent asked told.now self.old.machine.state self.new.machine.state self.old.tally self.new.tally) }
        ensures few { IfSome result (λ done. Grows self.old.tally self.new.tally) }
        ensures safe { IsSafe self.new.machine.state }
    {
        match asked {
            Asked::Granule(_) | Asked::Revoker(_) | Asked::Command(Command::Malloc { .. }) => {
                self.read(stepper, alloc, asked, told)
            }
            Asked::Command(command) => self.compare(stepper, alloc, command, told),
        }
    }

    // Judges a line.
    fn line<S: Stepper>(&mut self, stepper: &S, alloc: Global, line: &Line<'_>) -> Option<()>
        requires ready { S.ready }
        requires safe { IsSafe self.old.machine.state }
        requires room { HasRoom self.old.tally }
        ensures line { IfSome result (λ done. IsAgreedLine line.now self.old.machine.state self.new.machine.state self.old.tally self.new.tally) }
        ensures few { IfSome result (λ done. Grows self.old.tally self.new.tally) }
        ensures safe { IsSafe self.new.machine.state }
    {
        let Some((asked, told)) = asked_line(line)? else {
            return Some(());
        };
        self.event(stepper, alloc, asked, &told)
    }

    /// Judges the lines of a text, of which the first has this number. None where one doesn't agree or isn't read.
    pub fn lines<S: Stepper>(
        &mut self,
        stepper: &S,
        alloc: Global,
        first: u32,
        text: &[u8],
    ) -> Option<()>
        requires ready { S.ready }
        requires safe { IsSafe self.old.machine.state }
        requires fresh { self.old.tally ≡ tally_of [] }
        requires few { first + length text.now < 2 ^ 32 }
        ensures { IfSome result (λ done. (next : ℕ) × HaveAgreed first (lines_of text.now) next [] self.old.machine.state self.new.machine.state self.new.tally) }
    {
        let mut number = first;
        let mut rest = text;
        while let Some((line, after)) = split_line(rest) {
            self.line(stepper, alloc, &line)?;
            rest = after;
            number += 1;
        }
        Some(())
    }
}
