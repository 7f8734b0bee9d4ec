// No code: the published compiled task, what is demanded of the checker over it, and the proofs.
#![tactic(auto)]
