//! The request for edits.

/// What `eco IN ROUTES EDITS OUT` asks for: the names of the design, of its routes, of the edits, and of the routes of the edited
/// design to be written.
#[derive(Clone, Copy, Debug, Drop)]
pub struct EcoRequest<'a> {
    pub input: &'a str,
    pub routes: &'a str,
    pub edits: &'a str,
    pub edited: &'a str,
}
