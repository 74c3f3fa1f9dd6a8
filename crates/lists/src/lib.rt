// The whole-table theorem: lists of calls from a fresh join, and what holds of them however the tables are cut into frames; moved joins; companies that share a house. No code.
#![tactic(auto)]
