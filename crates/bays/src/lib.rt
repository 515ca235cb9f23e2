// One bay among operations: what can be wrong with it, and what judging it comes to. The definitions are in `specs/`.
#![tactic(auto)]
