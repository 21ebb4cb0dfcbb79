//! Laws that join a reading and its faults: any bytes read as a value, or have a first fault.
#![tactic(auto)]

pub mod laws;
