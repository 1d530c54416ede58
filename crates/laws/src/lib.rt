// No code: laws of the model's tests in the forms that proofs of code cite stand in specs/.
#![tactic(auto)]
