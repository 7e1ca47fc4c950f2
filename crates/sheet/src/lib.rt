// The serialised network: specs/ says what its bytes give.
#![tactic(auto)]
