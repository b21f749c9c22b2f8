//! Replies to the commands of a session, and their texts.
//!
//! `Reply` has one variant for each kind of reply, with the numbers that its text shows. `Ids`, `RankList` and `EdgeList` are
//! lists of numbers, of vertices with their degrees and of entries, which contracts see as lists; each copies a slice or takes
//! a vector over. `LastPosition` is where the last entry of a load stands, with memory that is taken before.
//! `render` appends the text of a reply, a line in most cases, and `put_heading` the line with which a session begins.
//! What they append is `text_of` and `heading_of`, which the definitions give word for word; `text_of_session` is the
//! text of a whole session. At want of memory, their only error, the list is as it was before the call.
//! Left out: which reply a command may have, and where a text goes once it is in memory.
#![tactic(auto)]

mod last_position;
mod lines;
mod lists;
mod reply;
mod texts;

pub use last_position::LastPosition;
pub use lists::{EdgeList, Ids, RankList};
pub use reply::Reply;
pub use texts::{put_heading, render};

#[cfg(test)]
mod tests;
