// Request N10: no order of an accepted step can be left out. Statements in specs/, no function of its own.
#![tactic(auto)]
