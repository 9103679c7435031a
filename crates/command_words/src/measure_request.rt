//! The request to measure routes.

/// What `measure IN ROUTES` asks for: the names of the design and of the routes.
#[derive(Clone, Copy, Debug, Drop)]
pub struct MeasureRequest<'a> {
    pub input: &'a str,
    pub routes: &'a str,
}
