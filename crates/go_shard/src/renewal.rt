// What a vertex becomes when it is compacted.
use go_chunk::Chain;
use go_versions::Versions;

/// The neighbours of a vertex after its first entries, as many as `floor` says.
#[derive(Drop)]
pub(crate) struct Base {
    pub(crate) list: Vec<u32>,
    pub(crate) floor: u32,
}

/// What a vertex gets in a compaction, in memory of its own.
#[derive(Drop)]
pub(crate) struct Renewal {
    // what comes behind the old list, which has room for it, or else the whole list
    pub(crate) base: Box<Base>,
    pub(crate) grows: bool,
    pub(crate) tail: Chain,
    pub(crate) versions: Versions,
}
