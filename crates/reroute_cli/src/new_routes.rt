//! New routes of a design.

use crate::reroute_report::RerouteReport;
use grid_graph::Design;
use negotiation::Rerouted;

/// A design, new sets for its nets, and what is reported of them.
#[derive(Drop)]
pub struct NewRoutes {
    pub design: Design,
    pub rerouted: Rerouted,
    pub report: RerouteReport,
}
