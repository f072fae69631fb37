// What is proved of whole runs of the engine's calls: no code, only statements (specs/) and their proofs.
#![tactic(auto)]
