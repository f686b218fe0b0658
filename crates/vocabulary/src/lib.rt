// The few definitions that every specification uses, and what is proved of them once. It has no code.
#![tactic(auto)]
