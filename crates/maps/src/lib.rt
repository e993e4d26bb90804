// What a map, a level and a reading are: definitions alone, in specs/. There is no function here.
#![tactic(auto)]
