// The text of tables has no code here: what it is, how it is read, and that both ways lose nothing, stand in specs/.
#![tactic(auto)]
