// No code: what running and folding change lists is, and what holds of them.
#![tactic(auto)]
