// A trace judged, record by record, on two buffers.
#![tactic(auto)]

pub mod answer;
pub mod buses;
pub mod each;
pub mod feed;
pub mod forms;
pub mod start;
pub mod step;
