// What a source and a sink tell of themselves before and after a call, what of a source was read in it, and what of a
// text the sink then holds. Definitions alone, for all that reads lines and writes text.
#![tactic(auto)]
