// Cases of the definition that are computed: no code of its own.
#![tactic(auto)]
