//! The versions of one number, by front: what it was at any front that is still answered for.
//!
//! Contracts see `Versions` as a record: the list of versions in the order in which they were noted,
//! each a front and the count from there on, the retired front, and `spare`, how many may be noted before
//! memory is asked for. `count_at` of that list is the count of the last version at or below a front; since
//! fronts rise along the list, that is the one with the greatest front there.
//! A caller may rely on this: `at` answers `count_at`; a note changes no answer before its front; retiring
//! a front changes no answer from there on, and keeps one version at or below it at most; a refused
//! `reserve` changes nothing but the room. `at` is a binary search, and `forget_last` takes the last note back.
//! Left out: a version can't be changed, and nothing is answered below the retired front.
#![tactic(auto)]

mod few;
mod search;
mod version;
mod versions;

pub use versions::Versions;
