// General facts, of which specs/ has all: no function and no word of the gate.
#![tactic(auto)]
