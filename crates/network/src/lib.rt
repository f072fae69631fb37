// What a call knows of the network.
#![tactic(auto)]

pub mod network_info;
