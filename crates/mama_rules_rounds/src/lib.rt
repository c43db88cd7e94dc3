//! The run of a script in rounds, as definitions: what a client puts step by step, the world of journals and lanes and
//! its turns, and which record a script has when it is played on one thread. There is no code here.
#![tactic(auto)]
