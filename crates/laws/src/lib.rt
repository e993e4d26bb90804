// Laws of verdicts, counts, tables, sizes and marks, which every crate cites. No function. Assumes nothing.
#![tactic(auto)]
