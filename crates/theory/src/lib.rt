// A model of updates on one core in true time, in specs/, and the theorems about it, in proofs/, but for those of Stolen and Examples, which are
// in specs/.
// There is no code here.
#![tactic(auto)]
