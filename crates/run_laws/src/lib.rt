//! What a run of a network means, whatever the order of its steps: the units before each arrival, the lawful plans,
//! who owns a unit in which round, and the accesses of each arrival. The pipes and the network speak of it; there is
//! nothing to call.
#![tactic(auto)]
