// The definitions of document 01: nothing here runs.
#![tactic(auto)]
