// Which replies of a session rest on a prefix of the log alone.
ghost use Rattle.std.specs.Prelude.{◌≡◌, ◌<◌, ◌≤◌, ◌^◌, max, nat_le, length, take, slice_set};
ghost use Rattle.go_script.specs.Commands.{commands_of};
ghost use Rattle.go_script.specs.Places.{NamesPlace};
ghost use Rattle.go_session.specs.Cut.{cut_from, rest_of, read_by};
ghost use Rattle.go_session.specs.Walk.{Walk, row_of, start, after, effect_of};
ghost use Rattle.go_session.specs.Rests.{Tracks};

use go_api::PLACES;
use go_report::Reply;
use go_script::{Command, Script};

// What later replies may rest on: how long the log was at opening, how much of it was seen, and how much each place shows.
#[derive(Clone, Copy)]
struct Rests {
    first: u64,
    seen: u64,
    shown: [u64; PLACES],
}

/// How many of the first replies to a script, over a log that was so long at opening, rest on at most so many of the log's
/// first entries, up to the first that rests on more.
pub fn count_within(script: &Script, first: u64, replies: &[Reply], durable: u64) -> usize
    requires { length replies.now ≤ length script.now }
    ensures shown { take result replies.now ≡ cut_from durable (start first) (commands_of script.now) replies.now }
    ensures within { result ≤ length replies.now }
{
    let mut rests = Rests {
        first,
        seen: first,
        shown: [0; PLACES],
    };
    for i in 0..replies.len() {
        let reply = &replies[i];
        if !rests.within(script.command(i), reply, durable) {
            return i;
        }
        rests.note(reply);
    }
    replies.len()
}

impl Rests {
    // Whether a reply rests on at most so many of the log's first entries.
    fn within(&self, command: &Command, reply: &Reply, durable: u64) -> bool
        requires { NamesPlace command.now }
        ensures { (walk : Walk) → Tracks walk self.now → result ≡ nat_le (rest_of walk (row_of command.now) reply.now) durable }
    {
        match reply {
            Reply::Added { position } | Reply::Deleted { position } | Reply::Offered { position } =>
                *position < durable,
            Reply::Busy { head, .. } => *head <= durable,
            Reply::Loaded { last, .. } => match last.get() {
                Some(position) => position < durable,
                None => self.seen <= durable,
            },
            Reply::Viewed { front, .. }
            | Reply::Streamed { cursor: front, .. }
            | Reply::Updated { to: front, .. }
            | Reply::Synced { front } => *front <= durable,
            Reply::Degree { .. }
            | Reply::Neighbours { .. }
            | Reply::Level { .. }
            | Reply::Levels { .. }
            | Reply::Rank { .. }
            | Reply::Hop { .. } => self.read_by(command) <= durable,
            Reply::Until { asked } => self.first <= durable && *asked <= durable - self.first,
            Reply::Dropped { .. } | Reply::Closed { .. } | Reply::Compacted => self.seen <= durable,
        }
    }

    // How many of the log's first entries the view shows of which a command asks something; for other commands, as many as were seen.
    fn read_by(&self, command: &Command) -> u64
        requires { NamesPlace command.now }
        ensures { (walk : Walk) → Tracks walk self.now → result ≡ read_by walk (row_of command.now) }
    {
        match command {
            Command::Degree { place, .. }
            | Command::Neigh { place, .. }
            | Command::Hop { place, .. }
            | Command::Level { place, .. }
            | Command::Bfs { place, .. }
            | Command::Rank { place, .. } => self.shown[*place as usize],
            _ => self.seen,
        }
    }

    // Keeps what a reply has seen, and what it leaves at a place.
    fn note(&mut self, reply: &Reply)
        requires { (effect_of self.old.first reply.now).seen < 2 ^ 64 }
        ensures { (walk : Walk) → Tracks walk self.old → Tracks (after walk reply.now) self.new }
    {
        match reply {
            Reply::Viewed { place, front } => self.leave(*place, *front),
            Reply::Streamed { place, cursor } => self.leave(*place, *cursor),
            Reply::Updated { place, to, .. } => self.leave(*place, *to),
            Reply::Dropped { place } | Reply::Closed { place } => self.show(*place, 0),
            Reply::Until { asked } => self.see(self.first + *asked),
            Reply::Synced { front } => self.see(*front),
            _ => {}
        }
    }

    // More of the log was seen.
    fn see(&mut self, front: u64)
        ensures { self.new ≡ record self.old { seen = max self.old.seen front } }
    {
        self.seen = self.seen.max(front);
    }

    // A place shows so much.
    fn show(&mut self, place: u8, front: u64)
        ensures { self.new ≡ record self.old { shown = slice_set self.old.shown place front } }
    {
        if (place as usize) < self.shown.len() {
            self.shown[place as usize] = front;
        }
    }

    // A place shows so much, which was seen.
    fn leave(&mut self, place: u8, front: u64)
        ensures { self.new ≡ record self.old { seen = max self.old.seen front; shown = slice_set self.old.shown place front } }
    {
        self.show(place, front);
        self.see(front);
    }
}
