// The table of cases, document 01's rows and those of the requests: no code.

#![tactic(auto)]
