//! The test fixture: what a rig is asked and what it answers, and the typed states of a unit in it.
//!
//! - [`Rig`] is the trait of every fixture. Contracts see its state (specs/RigState.antt): its counts of faults, readings, seats
//!   and open interlock readings, the volts and the route of its source, and, where it tells them, its units, the seated unit's
//!   rows, the trail of events and the tallies of each seating. Each call is one relation over the state before and after it
//!   (specs/Calls.antt, specs/Seating.antt): an answer is one event, and nothing else changes.
//! - `Failed` is answered only where the rig's count of faults rose, and no other answer raises it. Want of memory does nothing to
//!   the device: no count rises, and nothing is recorded. A command to zero takes no memory, and a route and a raise leave room for
//!   three of them.
//! - [`Seated`] owns a rig with a unit seated and no voltage. [`Continuous`] holds a partition all of whose joins the readings so
//!   far force, and [`Proven`] one that they determine. What a state holds is kept by its type; a refused call hands the state back
//!   with all events that it had.
//! - No voltage is raised but under the condition of [`Rig::raise`]: a route whose groups no bond of a [`Permit`] joins, readings
//!   that determine the permit's partition, an interlock read closed with no tick since, and steps of at most 50 volts up to 2,000.
//!   A permit comes from [`Proven::permit`] alone and is good for its seating alone. [`Live`] is a unit under such a route: it can
//!   only be brought down, to [`Safe`], whose source went to zero, or, after three commands that failed, to [`Stuck`].
//! - The order of high-voltage events along a trail is a definition (specs/HvOrder.antt); each call of a state says exactly which
//!   events it added.
//! - [`laws`]: where an honest rig tells the unit, what the readings determine is the unit's own partition.
#![tactic(auto)]

mod event;
pub mod laws;
mod path;
mod permit;
mod powered;
mod rig;
mod safe;
mod seat_number;
mod seated;
mod tested;
mod unit;

pub use event::{Event, EventList, Leak, Tally, TallyList};
pub use path::Path;
pub use permit::Permit;
pub use powered::{Live, RaiseStop, RouteStop, Stuck};
pub use rig::{Rig, RigStop, SeatAnswer};
pub use safe::{DischargeStop, Safe};
pub use seated::{SeatStop, Seated};
pub use tested::{Continuous, Proven};
pub use unit::{Row, Rows, Unit, Units};
