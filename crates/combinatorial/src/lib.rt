// Bring in a partner's 2D combinatorial map as a base, and take it back. Assumes nothing.
#![tactic(auto)]

mod exporting; // exporting.rt: from a base to the partner's two rows
mod importing; // importing.rt: from the two rows to a base

pub use exporting::export;
pub use importing::import;
