//! One connection of the station: its request is read, answered and replied. [`serve_one`] is the one call.
//!
//! What it promises, each a clause of its contract:
//!
//! - `served`: all that a request made of the station and the connection, whatever is told.
//! - `replies`: where the bytes of the connection are told, **it is its reply**. What the bytes ask is the first check of
//!   `http_exchange` that applies. What is due is the reply of that check, of a report that of the records, and of a command that
//!   passes all checks that of the station's step at the clock's moment, of which one moment at most passes. Where no count of the
//!   connection rose it got exactly what is due, the status is the reply's, and the records are those that are due: the step's for
//!   a command, and those before for all else. Bytes that end before a request does are due no reply: the connection is cut, and
//!   nothing is added. Where a count rose, it got a front of that, and the records are those before or those that are due.
//! - A crash at any moment leaves the records before, or those that are due. The reply is written behind the step.
//! - Where the station stops, the connection got a front of what is due, or of the reply that the disk failed or that memory ran
//!   out. Each image of the disk keeps the records before or those that are due; after three failed zero calls just those before.
//! - `standing`: a station that goes on stands as it did, and each image of its disk keeps just its records.
//! - `order`: the trail is as it was, or in the order of high voltage and ended at zero; after three failed zero calls it is in
//!   this order and ended with them.
//! - `at_zero`: the source is at zero behind it, but where three zero calls failed.
//! - `rig`: a request that came to no command left the rig alone. Behind a command the rig shows what its answer says, or that its test
//!   was made or cut off, and at most the tally of that test came.
//!
//! The statuses, each exactly where its check is the first that applies (`asked_by`, `Asks`), or its answer is given (`kind_of`,
//! `refusal_reply`, `stop_reply`):
//!
//! | status | where |
//! |---|---|
//! | 400 | the first 8,192 bytes hold no head, or it is no head of the grammar with at most 64 fields |
//! | 501 | a Transfer-Encoding is named |
//! | 404 | the path has no page |
//! | 405 | the page takes the other method |
//! | 411 | a submission has no Content-Length |
//! | 400 | it has two, or one that is no number of at most nine digits |
//! | 413 | its length is above 4,096 |
//! | 400 | its body is no object whose members are the names that are asked for |
//! | 404 | the report of a unit that is no name, or is not enrolled |
//! | 200 | every other report; a command whose record is stored, now or before |
//! | 409 | a rule refuses the command, or the journal is full |
//! | 502 | the fixture is empty, the door is open, the unit stays charged, the rig failed, or the source is not at zero |
//! | 503 | the disk failed and counted it, and the station stops |
//! | 500 | memory ran out, and the station stops |
//! | none | a count of the connection rose, or its bytes end before the request does |
#![tactic(auto)]

mod serve;
mod turn;

pub use serve::{ServeDone, serve_one};
pub use station::StepStop as ServeStop;
