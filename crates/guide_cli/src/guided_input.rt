//! What guides are to be written for.

use judge_cli::RoutedInput;

/// A near design and routes; or that the design is not near.
#[derive(Drop)]
pub enum GuidedInput {
    Routes(RoutedInput),
    Far,
}
