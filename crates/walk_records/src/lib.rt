// The walk over a window joined and told as records, in two passes: one sizes, one writes.

#![tactic(auto)]

mod put;
mod size;

pub use put::put_walk;
pub use size::walk_size;
