// Document 01's Compiler section as definitions over the typed tree. There is no code here.

#![tactic(auto)]
