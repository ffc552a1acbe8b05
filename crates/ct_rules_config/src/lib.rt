//! Configurations, as a definition: what every run is a run of.
#![tactic(auto)]
