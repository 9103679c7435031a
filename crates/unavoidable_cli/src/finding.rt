//! What is found of routes that the judge accepts, with a certificate or without.

use crate::priced_edge::PricedEdge;
use cert_text::Cert;
use grid_graph::Design;

/// What no routing on the nets' grounds avoids, and what shows it.
#[derive(Drop)]
pub struct Finding {
    pub design: Design,
    /// The certificate that was begun with, or one with a greater bound, and prices that show it.
    pub new: Cert,
    /// The edges that the new certificate prices above 0, in rising order; none where it is the one that was begun with.
    pub bottleneck: Vec<PricedEdge>,
    /// Every routing has at least so much overflow.
    pub overflow: u64,
    /// The edges whose prices show it, in rising order; none where there need not be any overflow.
    pub cut: Vec<PricedEdge>,
    /// The overflow of the routes.
    pub routes: u64,
}
