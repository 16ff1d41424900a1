//! A waiting list of numbered parties, each of which has at most one entry.

mod seat;
mod wait_queue;
mod weighted_queue;
mod weighted_seat;

pub use wait_queue::WaitQueue;
pub use weighted_queue::WeightedQueue;
