//! The request for guides.

/// What `guide IN ROUTES GUIDES` asks for: the names of the design, of its routes, and of the guides to be written.
#[derive(Clone, Copy, Debug, Drop)]
pub struct GuideRequest<'a> {
    pub input: &'a str,
    pub routes: &'a str,
    pub guides: &'a str,
}
