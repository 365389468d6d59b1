// Routines in the processor's own bytes, and what is proved of them over the definition of the machine. No code of the core.
#![tactic(auto)]
