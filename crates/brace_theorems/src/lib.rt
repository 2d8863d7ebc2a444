// Theorems only: expressions close where a rule over the page's bytes says. specs/Braces.antt is the rule, specs/Closing.antt states them.
#![tactic(auto)]
