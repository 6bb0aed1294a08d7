//! The station served: connections are accepted one after the other, each is served and finished, and its line is written.
//!
//! [`serve`] opens the journal and lets the door listen before it; [`serve_all`] serves from a station that stands.
//!
//! What [`serve_all`] promises, each a clause of its contract:
//!
//! - `serves`: the connections that were visited, one after the other, and what ended the serving, whatever is told.
//! - `in_order`: where the door and the output are told and the rig tells its units, the finished connections are the first that
//!   waited, in order. Each is its reply, as `station_http` defines it, by the records that the one before it left, and the clock
//!   goes on by one moment at most with each. The lines are theirs in order, `conn K STATUS` or `conn K cut`. Behind them at most
//!   one more connection was finished: one that was served, a front of whose line was written; or the one with which the station
//!   stopped, which got a front of its last reply. Then, and where the door refused, a front of the closing line was written. With 0
//!   all were served and told, and nothing is behind their lines; with 11 fewer.
//! - `keeps`: stopped at any moment, a crash leaves what it might have left before, or a sound image that keeps the records found and
//!   a front of those that were added. At the exit each image keeps the records behind the finished connections, or those and the
//!   next; with 0, 7, 10 and 11 the former alone. `limit`: no image grows longer than a journal may be.
//! - `order`: the trail is in the order of high voltage and ended at zero, where it was as the serving began; with 10 it ended with
//!   three zero calls that failed.
//! - `causes`: no count falls; 7, 8, 10 and 11 come only where the count of the output, the disk, the rig or the door rose.
//! - `complete`: where none of these counts rose, the status is 0, or 9.
//! - `answers`: no more answers say that the rig failed than its count of faults rose by, and no more that the door was open than its
//!   count of open doors rose by; nor are there more than the rig tells that it has.
//! - `tests`: each test among the records that were added had a seating of its own, which counts enough for the outcome that it states.
//! - `spent`: with 0, and where no recorded unit had a wiring fault and no test was refused for the rig's sake, the group readings that
//!   were made are those that each recorded test takes.
#![tactic(auto)]

mod opening;
mod serving;
mod telling;

pub use opening::serve;
pub use serving::serve_all;
