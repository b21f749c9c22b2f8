// What an update is to give.
ghost use Rattle.std.specs.Prelude.{◌≡◌, ◌≤◌, ◌↔◌, IsTrue};
ghost use Rattle.go_stream.specs.Spans.{upto, IsEnough};

use go_api::Span;
use go_ring::{Copied, CopyStop};

/// The entries that an update is to give: from a position on, so many at most, by an end that isn't below a floor.
#[derive(Clone, Copy)]
pub(crate) struct Wanted {
    pub from: u64,
    pub most: u32,
    pub floor: u64,
}

impl Wanted {
    // The span of what is given by an end.
    pub(crate) fn span(self, end: u64) -> Span
        requires { self.from ≤ end }
        ensures from { result.from ≡ self.from }
        ensures to { result.to ≡ upto self end }
    {
        Span {
            from: self.from,
            to: self.from + u64::from(self.most).min(end - self.from),
        }
    }

    // Whether a copy has come as far as it is to, and what it doesn't have of the span is durable.
    pub(crate) fn is_met_by(self, copied: &Copied) -> bool
        requires { self.from ≤ copied.now.end }
        ensures { IsTrue result ↔ IsEnough self copied.now }
    {
        let is_cut_off = matches!(copied.stop, CopyStop::Window { .. })
            && copied.end == copied.archived;
        self.floor <= copied.end && (!is_cut_off || self.span(copied.end).to <= copied.durable)
    }
}
