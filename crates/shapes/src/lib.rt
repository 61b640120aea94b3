// What the calls on a lent row of records have in common, of a chain and of a two-wire bus: their outcomes by the number that is found. Nothing runs here.
#![tactic(auto)]
