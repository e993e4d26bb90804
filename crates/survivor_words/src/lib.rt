// Survivor words of a level, and their count. Assumes nothing.
#![tactic(auto)]

mod words; // words.rt: the words

pub use words::survivors;
