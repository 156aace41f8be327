// The scope's figures, and those of 000 section 13.3: specs/ has a record of each, proofs/ its one
// value.
#![tactic(auto)]

ghost use Rattle.figures.specs.Figures.{Figures};
ghost use Rattle.figures.specs.TimingFigures.{TimingFigures};

// Does nothing. Its promise is that every figure is the document's, so that no
// proof can be taken out unseen.
pub fn proved()
    ensures { Figures × TimingFigures }
{}
