// Memory that kernels work in.

use std::alloc::Global;

/// Memory that kernels work in, which a caller keeps from one call to the next. What it holds matters to nobody.
#[derive(Drop)]
pub struct Work {
    /// The vertices at the level in hand.
    pub(crate) front: Vec<u32>,
    /// Those at the next level.
    pub(crate) next: Vec<u32>,
    /// The neighbours of a vertex.
    pub(crate) list: Vec<u32>,
    /// The level of each vertex, where only their numbers are asked for.
    pub(crate) levels: Vec<Option<u32>>,
}

impl Work {
    /// No memory yet.
    pub fn new(alloc: Global) -> Work {
        Work {
            front: Vec::new(alloc),
            next: Vec::new(alloc),
            list: Vec::new(alloc),
            levels: Vec::new(alloc),
        }
    }
}
