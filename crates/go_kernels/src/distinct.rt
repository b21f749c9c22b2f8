// The hop of a vertex of any graph.
ghost use Rattle.std.specs.Prelude.{◌<◌, OnOk};
ghost use Rattle.go_model.specs.Graph.{Keeps};
ghost use Rattle.go_model.specs.Hops.{IsHop};

use go_model::{Graph, keep_once};
use std::alloc::AllocError;

/// Gives the neighbours of `v`, each once and ascending, into `out`, which is cleared first.
///
/// The graph shows the same afterwards, and has become it by its own calls alone, also where memory ran out.
/// Nothing is claimed of `out` then.
pub fn hop<G: Graph>(g: &mut G, v: u32, out: &mut Vec<u32>) -> Result<(), AllocError>
    requires ready { G.ready g.old }
    requires there { v < (G.shows g.old).size }
    ensures exact { OnOk result (IsHop (G.shows g.old).log v out.new.items) }
    ensures keeps { Keeps G.shows G.ready G.became g.old g.new }
{
    g.neighbours(v, out)?;
    keep_once(out);
    Ok(())
}
