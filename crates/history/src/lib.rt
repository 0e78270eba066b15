// The proofs about a bank's history: specs/ holds them, and there is no code here.
#![tactic(auto)]
