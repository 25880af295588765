// The edge cases and the example sheet of document 01 and the cells of the page model, of the definitions: one table in specs/, one theorem in proofs/.
#![tactic(auto)]
