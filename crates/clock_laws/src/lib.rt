// Theorems alone: what holds of the clock, its notifier and its clients in any run of the kernel. Statements in specs/, proofs in proofs/.
#![tactic(auto)]
