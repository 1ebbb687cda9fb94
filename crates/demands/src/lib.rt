// The three demands over the definitions: nothing here runs.
#![tactic(auto)]
