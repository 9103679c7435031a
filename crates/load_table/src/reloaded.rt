//! What a run of loads answers.

/// What a run of loads found: the words before `since` are as they were found last, and those from `since` up to `next` may not be.
#[derive(Clone, Copy, Drop)]
pub struct Reloaded {
    /// The first word that may have been found other than it was last, or `next` where there is none.
    pub since: u32,
    /// The word behind the last one loaded.
    pub next: u32,
}
