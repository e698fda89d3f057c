//! What the steps of the queue that threads share come to: each is an event of the queue as a value.
//!
//! The one is `job_queue`, of which a moment is what is queued and what the owner of each pass knows. The other is `pipe_core`.
//! `specs/Stands.antt` says when a moment stands for a value.
#![tactic(auto)]

mod laws;

pub use laws::{each_moment_is_led_to, each_step_is_an_event};
