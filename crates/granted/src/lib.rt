// The theorems about the walk of steps: nothing here runs.
#![tactic(auto)]
