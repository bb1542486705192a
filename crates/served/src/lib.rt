// Theorems alone: what holds of a task that serves, whatever its service, in any run of the kernel. Statements in specs/, proofs in proofs/.
#![tactic(auto)]
