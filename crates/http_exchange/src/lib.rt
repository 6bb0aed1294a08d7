//! Requests of the station over HTTP, and their replies, as bytes.
#![tactic(auto)]

mod body;
mod head;
mod page;
mod reading;
mod reply;
mod request;
mod route;

pub use page::{Page, Submission, Verb};
pub use reading::read_request;
pub use reply::{AnswerKind, Stop, answer_reply, refusal_reply, report_reply, stop_reply};
pub use request::{Asked, Refusal, Request};

#[cfg(test)]
mod tests;
