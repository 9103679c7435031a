//! What a picture shows.

/// What a picture shows beside the map: the bottleneck and the cut of a certificate, by its name, and whether both directions
/// are one map, of the greater of the two.
#[derive(Clone, Copy, Debug, Drop)]
pub struct Picture<'a> {
    pub cut: Option<&'a str>,
    pub greater: bool,
}
