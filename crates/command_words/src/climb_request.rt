//! The request for a climb.

/// What `climb IN ROUTES CERT NEW` asks for: the names of the design, of its routes, of their certificate, and of the certificate
/// to be written; and at how many lists of loads the prices are looked for.
#[derive(Clone, Copy, Debug, Drop)]
pub struct ClimbRequest<'a> {
    pub input: &'a str,
    pub routes: &'a str,
    pub certificate: &'a str,
    pub climbed: &'a str,
    pub turns: u32,
}
