//! A command.

use crate::climb_request::ClimbRequest;
use crate::eco_request::EcoRequest;
use crate::guide_request::GuideRequest;
use crate::judge_request::JudgeRequest;
use crate::make_request::MakeRequest;
use crate::measure_request::MeasureRequest;
use crate::route_request::RouteRequest;
use crate::trial_request::TrialRequest;

/// What the words ask for.
#[derive(Clone, Copy, Debug, Drop)]
pub enum Command<'a> {
    /// A design is to be routed.
    Route(RouteRequest<'a>),
    /// Routes are to be measured.
    Measure(MeasureRequest<'a>),
    /// Routes and their certificate are to be checked.
    Judge(JudgeRequest<'a>),
    /// A design is to be made.
    Make(MakeRequest<'a>),
    /// A design is to be made, routed and judged, without a file.
    Trial(TrialRequest),
    /// A routed design is to be edited.
    Eco(EcoRequest<'a>),
    /// A certificate's prices are to rise further.
    Climb(ClimbRequest<'a>),
    /// Guides are to be written for routes.
    Guide(GuideRequest<'a>),
}
