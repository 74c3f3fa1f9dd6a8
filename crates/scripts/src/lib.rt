// Lists of calls with their answers, proved of the definitions by computation: a test of the definitions. See make.
#![tactic(auto)]
