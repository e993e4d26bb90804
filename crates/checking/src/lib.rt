// Check a pyramid, and add a level. Assumes nothing.
#![tactic(auto)]

mod pyramid; // pyramid.rt: a whole pyramid, and a level added

pub use pyramid::{add, check, early, early_with};
