//! A design with its routes.

use cert_text::Cert;
use grid_graph::Design;
use routing_stages::Trees;

/// A design, one set per net in file order, the prices of the loads of all phases, the overflow of the picked sets, how many
/// rounds of repair there were, and what is said of the sets.
#[derive(Drop)]
pub struct RoutedDesign {
    pub design: Design,
    pub trees: Trees,
    pub prices: Vec<u32>,
    pub rounded: u64,
    pub rounds: u32,
    pub cert: Cert,
}
