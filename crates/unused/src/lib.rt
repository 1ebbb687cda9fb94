// The theorems about policy lines that no step uses: nothing here runs.
#![tactic(auto)]
