// Document 01's bench sheet: its marked lines as a table of cases, and the theorem that all hold. There is no code
// here.
#![tactic(auto)]
