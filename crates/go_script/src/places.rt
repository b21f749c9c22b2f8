// What stands at each place.
ghost use Rattle.std.specs.Prelude.{◌≡◌, List, [], ◌∷◌, ◌++◌};
ghost use Rattle.go_script.specs.declared.command.Command.{Command as AnyCommand};
ghost use Rattle.go_script.specs.Commands.{use_of};
ghost use Rattle.go_script.specs.Places.{UsesPlace, finds_use};
ghost use Rattle.go_script.specs.Held.{Tells};

use crate::usage::{Kind, Use};
use go_api::PLACES;

// What stands at each place after the commands that were read.
#[derive(Clone, Copy)]
pub struct Places {
    pub held: [Option<Kind>; PLACES],
}

impl Places {
    // At first all places are free.
    pub fn new() -> Places
        ensures { Tells result [] }
    {
        Places {
            held: [None; PLACES],
        }
    }

    // Whether a use finds its place as it needs it.
    pub fn suit(&self, wanted: Use) -> bool
        requires { UsesPlace wanted }
        ensures { (before : List AnyCommand) → Tells self.now before → result ≡ finds_use before wanted }
    {
        match wanted {
            Use::Nothing => true,
            Use::Fills { place, .. } => self.held[place as usize].is_none(),
            Use::Reads { place, kind } | Use::Frees { place, kind } => {
                self.held[place as usize] == Some(kind)
            }
        }
    }

    // A command with this use was read.
    pub fn take(&mut self, made: Use)
        requires { UsesPlace made }
        ensures { (before : List AnyCommand) (command : AnyCommand) → Tells self.old before → use_of command ≡ made → Tells self.new (before ++ command ∷ []) }
    {
        match made {
            Use::Nothing | Use::Reads { .. } => {}
            Use::Fills { place, kind } => self.held[place as usize] = Some(kind),
            Use::Frees { place, .. } => self.held[place as usize] = None,
        }
    }
}
