//! Negotiated rip-up and reroute: sets for nets, made better round after round, from any sets or from none.
//!
//! ```text
//! let rerouted = reroute(&rt, alloc, &design, &grounds, given, &missing, &settings)?;
//! ```
//!
//! Nets without a set get one. In rounds of negotiation, after McMurchie and Ebeling ("PathFinder", 1995), the nets on overfull
//! edges are rerouted at prices that rise from round to round, whatever it costs the others; the best sets so far are kept.
//! In descent nets are offered shorter sets, and take what doesn't make the totals worse. Nets are searched for in batches, which
//! workers share.
//!
//! It stands on `tree_growth` for the search of one net, on `routing_state` for sets with their rooms and totals and for the best
//! so far, on `net_extents` for how far nets reach, on `price_workers`, `steiner_exact`, `edge_prices` and `sharing_runs` for a
//! route where the search finds none, on `seed_streams` for drawn orders, and on `lists`, `tree_set`, `grid_graph` and `grid_base`.
//!
//! Promised: each net keeps the set that it was given, or gets a route on its ground; overflow and wirelength are those of the
//! sets; and where each net was given a set, the sets are no worse than those. Not promised but tested: the outcome depends on no
//! number of workers, since all searches of a batch read the same, and what they find is put in by the order of the nets.
#![tactic(auto)]

mod batch_sizes;
mod batches;
mod descending;
mod drawn;
mod due;
mod finding;
mod gathering;
mod negotiating;
mod order;
mod overfull;
mod rerouted;
mod rerouting;
mod round_prices;
mod searching;
mod settings;
mod sight;
mod spanning;
mod starting;
mod tools;

pub use rerouted::Rerouted;
pub use rerouting::reroute;
pub use settings::RerouteSettings;
