// Definitions and laws alone: what a body says, and the claims over all bodies. Nothing runs.
#![tactic(auto)]
