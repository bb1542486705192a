// Theorems alone: what a host that calls the byte entry has in hand, and what a run prints. Statements in specs/, proofs in proofs/.
#![tactic(auto)]
