// One command of a script with the line that asks for it.

use crate::command::Command;

/// A command, and its line in the script's text, counted from 1.
#[derive(Debug, Drop)]
pub struct Step {
    pub line: u64,
    pub command: Command,
}
