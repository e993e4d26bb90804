// How often the loops turn whose turns depend on the data, and what they read of rows and table: theorems alone, in proofs/. There is no function here.
#![tactic(auto)]
