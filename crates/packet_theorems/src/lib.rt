// Theorems on reading and building together: built frames read back, accepted frames build their own bytes again. Nothing here runs.
#![tactic(auto)]
