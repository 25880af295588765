// The three demands on the machine, on one page. Statements in specs/, no function of its own.
#![tactic(auto)]
