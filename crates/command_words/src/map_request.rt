//! The request for a map of congestion.

use crate::map_form::MapForm;

/// What `congestion_map IN ROUTES MAP` asks for: the names of the design, of its routes and of the map to be written, the one
/// layer that the map is to show, or all, and the map's form.
#[derive(Clone, Copy, Debug, Drop)]
pub struct MapRequest<'a> {
    pub input: &'a str,
    pub routes: &'a str,
    pub map: &'a str,
    pub layer: Option<u32>,
    pub form: MapForm<'a>,
}
