// What is proved of whole runs, over the definition and over the promise of `machine::run::run`. No code of the core.
#![tactic(auto)]
