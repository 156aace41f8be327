// Lines of a listing as bytes: definitions in specs/, laws in proofs/. There is no code here.
#![tactic(auto)]
