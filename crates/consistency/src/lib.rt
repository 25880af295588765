// Demand 3: whatever list of calls, reads find what memory without a cache would give. Statements in specs/, no function of its own.
#![tactic(auto)]
