// The cases have no code: the case states of document 01 and of the desk, and what the model's definitions answer on them, stand in specs/.
#![tactic(auto)]
