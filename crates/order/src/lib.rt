// Theorems only: which chains hold a heap cell, which of them is the best, and that a breadth-first queue gives it.
#![tactic(auto)]
