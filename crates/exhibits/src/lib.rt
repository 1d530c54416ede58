// The public calls on the case states. There is no code here: `specs/` says what any answer that meets a call's promise is on these states.
#![tactic(auto)]
