// Jobs of steps over one memory, in any alternation: words in specs/, laws in
// proofs/. There is no code here.
#![tactic(auto)]
