// The figures that document 01 marks P, proved in a single statement over a list of them (proofs/Figures.antt). It has no code; the other
// figures are run by `figures`.
#![tactic(auto)]
