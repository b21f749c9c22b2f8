// A piece after a call that may have been refused.
use go_piece::Piece;
use std::alloc::AllocError;

// A piece after a call that may have been refused for want of memory.
pub(crate) struct Tried<D> {
    // The piece.
    pub(crate) piece: Piece<D>,
    // Whether the call was made.
    pub(crate) done: Result<(), AllocError>,
}
