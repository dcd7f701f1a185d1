// Which statements clash: the statements of an impossible question of which none can be spared.
// Over question values, and over bytes into three lent buffers.
#![tactic(auto)]

mod clashes;
mod files;
mod starts;
mod walks;

pub use clashes::{ClashingPart, clash};
pub use files::{ClashCounts, clash_file};
