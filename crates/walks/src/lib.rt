// The two walks of a program: by names in the tree, by numbers in the table. Definitions and theorems; there is no code here.

#![tactic(auto)]
