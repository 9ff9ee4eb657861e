// The theorems of check's promise, and what check is to answer by what its lines come to. No code.
#![tactic(auto)]
