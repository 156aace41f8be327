// Statements and their proofs: specs/Theorems.antt has the record of all,
// proofs/Theorems.antt its one value.
#![tactic(auto)]

ghost use Rattle.theorems.specs.Theorems.{Theorems};

// Does nothing. Its promise is that every statement holds, so that no
// proof can be taken out unseen.
pub fn proved()
    ensures { Theorems }
{}
