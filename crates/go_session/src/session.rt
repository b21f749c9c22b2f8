// A session: a script, the lists that its loads put, and the replies to its first commands.
ghost use Rattle.std.specs.Prelude.{◌≡◌, ℕ, ◌+◌, ◌-◌, ◌^◌, ◌<◌, ◌++◌, ◌∷◌, [], min, length, slice_get, Some, All, IfOk, OnOk};
ghost use Rattle.go_script.specs.Commands.{commands_of};
ghost use Rattle.go_script.specs.Places.{IsScript};
ghost use Rattle.go_script.specs.Until.{loads_in};
ghost use Rattle.go_report.specs.ReplyText.{text_of_session};
ghost use Rattle.go_session.specs.Asked.{may_put};
ghost use Rattle.go_session.specs.Cut.{shown};
ghost use Rattle.go_session.specs.Looks.{HasLooked};
ghost use Rattle.go_session.specs.Session.{CanGoOn, Stepped, unanswered, asked_left};

use crate::asking::{Outcome, ask};
use crate::buffers::Buffers;
use crate::cut::count_within;
use crate::quota::{entries_in, given_to, is_load};
use crate::writing::write;
use go_api::{Stop, Store};
use go_io::Gate;
use go_report::Reply;
use go_script::Script;
use go_word::Edges;
use std::alloc::{AllocError, Global};
use std::marker::Model;

/// What a step of a session did.
#[derive(Clone, Copy, Debug, PartialEq, Eq)]
pub enum Step {
    /// It answered one command.
    Did,
    /// It answered nothing: the next command waits for more entries than the session sees, which are so many.
    Waits { seen: u64 },
    /// It did nothing: no command is left.
    Ended,
    /// It answered nothing: the store stopped, or there was no memory.
    Stopped { why: Stop },
}

/// A script with the number of its session and the lists that its loads put, and the replies to its first commands.
#[derive(Drop)]
pub struct Session {
    // fixed
    number: u8,
    script: Script,
    lists: Vec<u32>,
    // told by the store at the first step
    first: u64,
    // grow with each step, within the memory that they have from the beginning
    replies: Vec<Reply>,
    loaded: usize,
    // what searches work in, from the first one on
    buffers: Buffers,
}

impl Model for Session {
    ghost use Rattle.go_script.specs.Commands.{commands_of};
    ghost use Rattle.go_session.specs.Session.{SessionState};
    ghost use Rattle.std.specs.Prelude.{length, ◌≤◌};
    ghost use Rattle.std.specs.Vec.{vec_capacity};
    ghost use Rattle.go_session.specs.Kept.{KeepsCount};

    ghost Value = { SessionState };

    ghost view = { λ session. record {
      number = session.number;
      first = session.first;
      commands = commands_of session.script;
      lists = session.lists.items;
      replies = session.replies.items;
    } };

    ghost invariant = { λ session. KeepsCount (commands_of session.script) session.lists.items session.replies.items session.loaded
        × (length session.script ≤ vec_capacity session.replies) };
}

impl Session {
    /// A session that has answered nothing, with the memory for all replies but for the lists in them.
    /// `lists` has for each load of the script the number of the list of entries that it puts.
    pub fn new(
        alloc: Global,
        number: u8,
        script: Script,
        lists: &[u32],
    ) -> Result<Session, AllocError>
        requires { length lists.now ≡ loads_in (commands_of script) }
        ensures unanswered { IfOk result (λ session. session ≡ unanswered number (commands_of script) lists.now) }
        ensures script { IfOk result (λ session. IsScript session.commands) }
    {
        let replies = Vec::with_capacity(alloc, script.len())?;
        let lists = Vec::from_slice(alloc, lists)?;
        Ok(Session {
            number,
            script,
            lists,
            first: 0,
            replies,
            loaded: 0,
            buffers: Buffers::new(alloc),
        })
    }

    /// How many entries the commands that are left may put, where these lists were loaded; more than a `u64` counts are as many as it does.
    pub fn puts(&self, loads: &[Edges]) -> u64
        requires lists { All (λ n. n < length loads.now) self.now.lists }
        ensures { result ≡ min (length (may_put (asked_left loads.now self.now))) (2 ^ 64 - 1) }
    {
        entries_in(
            &self.script,
            self.replies.len(),
            &self.lists,
            self.loaded,
            loads,
        )
    }

    /// Answers the next command by the store. Before each try it passes the gate.
    pub fn step<S: Store, G: Gate>(&mut self, store: &mut S, loads: &[Edges], gate: &G) -> Step
        requires can { CanGoOn loads.now self.old (S.stands store.old) }
        requires lists { All (λ n. n < length loads.now) self.old.lists }
        ensures stepped { Stepped loads.now result self.old self.new (S.stands store.old) (S.stands store.new) }
        ensures looked { HasLooked (S.looked store.old) result self.old (S.stands store.old) }
        ensures became { S.became store.old store.new }
    {
        let next = self.replies.len();
        if next == self.script.len() {
            return Step::Ended;
        }
        self.first = store.opened();
        gate.pass(self.number, u32::try_from(next).unwrap_or(u32::MAX));
        let command = self.script.command(next);
        let entries = given_to(command, &self.lists, self.loaded, loads);
        let listed = is_load(command);
        match ask(command, entries, store, &mut self.buffers) {
            Ok(Outcome::Told { reply }) => {
                self.replies.push_reserved(reply);
                if listed {
                    self.loaded += 1;
                }
                Step::Did
            }
            Ok(Outcome::NotYet { seen }) => Step::Waits { seen },
            Err(why) => Step::Stopped { why },
        }
    }

    /// Appends the text of the session: its heading and its replies. Where a front is given, as far as all that it tells
    /// rests on that many of the log's first entries.
    ///
    /// After want of memory nothing is claimed of `out`.
    pub fn write(&self, durable: Option<u64>, out: &mut Vec<u8>) -> Result<(), AllocError>
        ensures { OnOk result (out.new.items
            ≡ out.old.items ++ text_of_session self.now.number (shown durable self.now.first self.now.commands self.now.replies)) }
    {
        let count = match durable {
            None => self.replies.len(),
            Some(front) => count_within(&self.script, self.first, &self.replies, front),
        };
        write(self.number, &self.replies[..count], out)
    }
}
