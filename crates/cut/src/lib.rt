// When a search may leave a beginning of an arrangement. There is no code here: the definitions are in specs/, the laws in proofs/.

#![tactic(auto)]
