// Theorems alone: what each move of an entry does to the records of an image.
#![tactic(auto)]
