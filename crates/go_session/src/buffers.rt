// What searches work in.

use go_kernels::Work;
use std::alloc::Global;

// The memory of searches, which is kept from one to the next. What it holds matters to nobody.
#[derive(Drop)]
pub struct Buffers {
    pub alloc: Global,
    pub work: Work,
    pub levels: Vec<Option<u32>>,
}

impl Buffers {
    // No memory yet.
    pub fn new(alloc: Global) -> Buffers {
        Buffers {
            alloc,
            work: Work::new(alloc),
            levels: Vec::new(alloc),
        }
    }
}
