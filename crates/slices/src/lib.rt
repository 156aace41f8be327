// Slices of one drawing and of several (demand 3) over the FILL and PIXBLT calls: statements in
// specs/, proofs in proofs/. There is no code here.
#![tactic(auto)]
