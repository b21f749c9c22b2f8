// A graph that is read vertex by vertex.
ghost use Rattle.std.specs.Prelude.{◌≡◌, ◌<◌, OnOk};
ghost use Rattle.go_word.specs.Neighbours.{neighbours};
ghost use Rattle.go_model.specs.Graph.{Shown, IsDrawn, Keeps};

use std::alloc::AllocError;

/// A graph that is read vertex by vertex: what a log of entries comes to, and how many vertices there are.
///
/// Reading may change the value, as it does where a store stands behind it, and never what it shows.
pub trait Graph {
    /// The entries, and the number of vertices.
    ghost shows: { Self → Shown };

    /// It may be read. What a value of the type must meet for that is said here.
    ghost ready: { Self → Type 0 };

    /// The first graph may have become the second by calls of the trait: what an implementation promises besides of all of its calls.
    ghost became: { Self → Self → Type 0 };

    /// Without a call the graph is the same.
    ghost same: { (graph : Self) → became graph graph };

    /// Some calls, and then some more.
    ghost onwards: { (one two three : Self) → became one two → became two three → became one three };

    /// How many vertices there are; ids are below it.
    fn vertices(&self) -> u32
        requires { ready self.now }
        ensures size { result ≡ (shows self.now).size }
        ensures drawn { IsDrawn (shows self.now).log (shows self.now).size };

    /// Gives the neighbours of a vertex into `out`, which is cleared first.
    /// After want of memory nothing is claimed of `out`.
    fn neighbours(&mut self, v: u32, out: &mut Vec<u32>) -> Result<(), AllocError>
        requires ready { ready self.old }
        requires there { v < (shows self.old).size }
        ensures listed { OnOk result (out.new.items ≡ neighbours (shows self.old).log v) }
        ensures keeps { Keeps shows ready became self.old self.new };
}
