// The axes of a plan, its points, and the table that holds the axes: definitions in specs/, laws in
// proofs/. There is no code here but the numbers that bound a plan.
#![tactic(auto)]

// A plan has at most so many axes.
pub const AXES: u64 = 8;

// An axis has at most so many values.
pub const VALUES: u64 = 64;
