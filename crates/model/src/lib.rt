// The model has no code: document 01 as definitions, and what is proved of them, stand in specs/.
#![tactic(auto)]
