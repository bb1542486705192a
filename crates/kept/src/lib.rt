// Theorems alone: every decision leaves a table that keeps the rules. specs/Sound says it, proofs/Kept proves it.
#![tactic(auto)]
