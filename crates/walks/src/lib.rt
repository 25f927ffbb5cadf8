// Proofs by hand of thin functions over references to structs, once for each form, in specs/. There is no code here.
#![tactic(auto)]
