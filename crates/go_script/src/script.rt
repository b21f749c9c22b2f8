// A script that was read: its commands with their lines.
ghost use Rattle.std.specs.Prelude.{◌≡◌, ◌<◌, ◌∷◌, ◌++◌, [], length, slice_get, ◌==◌, ◌^◌, Some, IfSome, OnOk, OnErr};
ghost use Rattle.go_script.specs.Commands.{commands_of};
ghost use Rattle.go_script.specs.Places.{Fits, IsScript};

use crate::command::Command;
use crate::step::Step;
use std::alloc::{AllocError, Global};
use std::marker::Model;

/// The commands of a script, in order, with their lines.
///
/// Contracts see the list of its steps. Each command names one of the places 0 to 3, where it names one,
/// and finds it as it needs it after the commands before it.
#[derive(Debug, Drop)]
pub struct Script {
    steps: Vec<Step>,
}

impl Model for Script {
    ghost use Rattle.std.specs.Prelude.{List};
    ghost use Rattle.go_script.specs.declared.step.Step.{Step};
    ghost use Rattle.go_script.specs.Commands.{commands_of};
    ghost use Rattle.go_script.specs.Places.{IsScript};

    ghost Value = { List Step };

    ghost view = { λ script. script.steps.items };

    ghost invariant = { λ script. IsScript (commands_of script.steps.items) };
}

impl Script {
    /// A script without a command.
    pub fn new(alloc: Global) -> Script
        ensures { result ≡ [] }
    {
        Script {
            steps: Vec::new(alloc),
        }
    }

    /// The number of commands.
    pub fn len(&self) -> usize
        ensures len { result ≡ length self.now }
        ensures small { length self.now < 2 ^ 63 }
        ensures script { IsScript (commands_of self.now) }
    {
        self.steps.len()
    }

    /// Whether there is no command.
    pub fn is_empty(&self) -> bool
        ensures { result ≡ (length self.now == 0) }
    {
        self.steps.is_empty()
    }

    /// The line of the command at a place, counted from 1.
    pub fn line(&self, i: usize) -> u64
        requires { i < length self.now }
        ensures { IfSome (slice_get self.now i) (λ step. result ≡ step.line) }
    {
        self.steps[i].line
    }

    /// The command at a place.
    pub fn command(&self, i: usize) -> &Command
        requires { i < length self.now }
        ensures command { slice_get (commands_of self.now) i ≡ Some result.now }
        ensures script { IsScript (commands_of self.now) }
    {
        &self.steps[i].command
    }

    // Takes one more step at the end; after want of memory the script is as it was.
    pub(crate) fn push(&mut self, step: Step) -> Result<(), AllocError>
        requires { Fits (commands_of self.old) step.command }
        ensures ok { OnOk result (self.new ≡ self.old ++ step ∷ []) }
        ensures err { OnErr result (self.new ≡ self.old) }
    {
        self.steps.push(step)?;
        Ok(())
    }
}
