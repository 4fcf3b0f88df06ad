// No code: the table read kind by kind, and what a step may count on.

#![tactic(auto)]
