// The calls for C in numbers: what each returns and leaves, what a host can rely on, and lists of calls. Definitions and laws; no code.
#![tactic(auto)]
