//! The rules of the bridge and of the timer service, as functions of their journals: what they put at each entry, which
//! objects are live, and what goes through their links. There is no code here.
#![tactic(auto)]
