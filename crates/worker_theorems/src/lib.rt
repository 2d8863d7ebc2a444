// Theorems only: no page holds up another, and what becomes of a page depends on that page alone. specs/ states them.
#![tactic(auto)]
