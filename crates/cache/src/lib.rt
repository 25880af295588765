// The board's memory and cache: tags, one line's write-back, eviction and fill, the two operations, a processor's access, a device's transfer.
// Memory, words and tags are lent slices of the board's lengths.
#![tactic(auto)]

pub mod access;
mod copy;
pub mod device;
pub mod line;
pub mod operation;
pub mod tag;
