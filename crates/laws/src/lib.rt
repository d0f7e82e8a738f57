// No code: the laws on tests, outputs and parts of lists that more than one crate cites.
#![tactic(auto)]
