// Theorems on schedules of calls over whole tables: the plan, the pairs of a cut, the join over merged books.
#![tactic(auto)]
