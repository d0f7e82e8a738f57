// That each promise leaves one possible answer: theorems only, a file of proofs/ for each crate.
#![tactic(auto)]
