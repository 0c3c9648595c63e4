// The board: a timeline's bytes, as a host kept them, drawn as cells.
#![tactic(auto)]

mod cells;
mod grid;

pub use cells::cells_answer;
