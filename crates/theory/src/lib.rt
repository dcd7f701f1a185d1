// The theory that ties a question to its answer. No code: definitions in specs/, laws in proofs/.
// proofs/DemandThree.antt has the main theorem: a question is possible exactly if its row list has a solution.

#![tactic(auto)]
