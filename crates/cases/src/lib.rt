// The worked cases, computed: specs/ holds them, and there is no code here.
#![tactic(auto)]
