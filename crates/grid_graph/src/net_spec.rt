//! A net.

use crate::name::Name;
use crate::terms::Terms;

/// A net as the design states it.
#[derive(Drop)]
pub struct NetSpec {
    /// The number that tells it from all other nets.
    pub id: u32,
    /// What it is called. Two nets may have one name.
    pub name: Name,
    /// The width of its wires, where a layer asks for no more.
    pub width: u32,
    /// The vertices that its route joins.
    pub terminals: Terms,
}
