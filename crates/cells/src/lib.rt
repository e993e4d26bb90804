// Cells of an explicit level: mark those of one dimension that can go. Assumes nothing.
#![tactic(auto)]

mod mark;

pub use mark::mark_cells;
