// What questions work in.

use std::alloc::Global;

/// The memory of questions, which is kept from one to the next. What it holds matters to nobody.
#[derive(Drop)]
pub struct Scratch {
    /// The words of a vertex that are in the ring.
    pub words: Vec<u64>,
    /// The neighbours of a vertex that is asked for their number alone.
    pub list: Vec<u32>,
}

impl Scratch {
    /// No memory yet.
    pub fn new(alloc: Global) -> Scratch {
        Scratch {
            words: Vec::new(alloc),
            list: Vec::new(alloc),
        }
    }
}
