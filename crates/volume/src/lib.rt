// Volumes with what they have synced and pushed, and snapshots with their path of log ranges.
#![tactic(auto)]

pub mod snapshot;
pub mod volume;
