//! The request to make a design.

/// What `make OUT` asks for: the name of the design to be made, its seed, and how large it is to be.
#[derive(Clone, Copy, Debug, Drop)]
pub struct MakeRequest<'a> {
    pub output: &'a str,
    pub seed: u64,
    pub cols: u32,
    pub rows: u32,
    pub layers: u32,
    pub nets: u32,
}
