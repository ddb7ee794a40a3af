// No code: what it means that a part of an array or an output is filled, and laws for the loops that fill one.
#![tactic(auto)]
