//! What the words of the contracts amount to. Nothing is computed here: each contract is a law.

ghost use Rattle.std.specs.Prelude.{ℕ, ◌≡◌, ◌↔◌, ◌<◌, ◌≤◌, List, All, Option, Some, None};
ghost use Rattle.std.specs.Option.{ForSome};
ghost use Rattle.cert_text.specs.declared.cert.Cert.{Cert};
ghost use Rattle.cert_text.specs.Certs.{IsCertOf, IsCertWithin};
ghost use Rattle.cert_text.specs.CertText.{cert_text};
ghost use Rattle.dual_bound.specs.DesignBounds.{IsBoundOrNone};
ghost use Rattle.dual_bound.specs.Prices.{ArePricesWith};
ghost use Rattle.edge_prices.specs.declared.budget.Budget.{Budget};
ghost use Rattle.edge_prices.specs.Limits.{max_price};
ghost use Rattle.grid_base.specs.declared.piece.Piece.{Piece};
ghost use Rattle.grid_graph.specs.Alike.{AreAlikeDesigns};
ghost use Rattle.grid_graph.specs.Borders.{HasBordersInRange};
ghost use Rattle.grid_graph.specs.declared.design.Design.{Design};
ghost use Rattle.grid_graph.specs.declared.ground.Ground.{Ground};
ghost use Rattle.grid_graph.specs.Grounds.{AreGrounds};
ghost use Rattle.fractions.specs.declared.fraction.Fraction.{Fraction};
ghost use Rattle.edge_prices.specs.Budgets.{IsWithinLimits, most_of};
ghost use Rattle.tree_set.specs.declared.measure.Measure.{Measure};
ghost use Rattle.tree_set.specs.Order.{IsRising};
ghost use Rattle.route_text.specs.declared.block.Block.{Block};
ghost use Rattle.route_text.specs.Written.{written_blocks};
ghost use Rattle.route_judge.specs.declared.reason.Reason.{Reason};
ghost use Rattle.route_judge.specs.Judgements.{IsJudged, StatesBound};
ghost use Rattle.route_judge.specs.Limits.{AreBlocks};
ghost use Rattle.route_judge.specs.Measured.{AreMeasured};
ghost use Rattle.route_judge.specs.NetSets.{AreSetsOf, AreJoining};
ghost use Rattle.route_judge.specs.Orders.{AreRoutes};
ghost use Rattle.judge_laws.specs.Meeting.{ClaimsTruly, Meet};
ghost use Rattle.judge_laws.specs.OpenPrices.{with_prices};
ghost use Rattle.judge_laws.specs.RoutesAlone.{IsCertOfRoutes};
ghost use Rattle.judge_laws.specs.TextVerdicts.{AreTextsOf, IsVerdictOn};

/// The blocks that are written for sets that join the nets of a design without walls are routes of it, which give the nets these
/// very sets. Where the design's borders are in range, the blocks can be judged.
pub fn written_routes_are_accepted()
    ensures routes { (d : Design) (trees : List (List Piece)) → All IsRising trees → AreJoining d trees → AreRoutes d (written_blocks d.grid d.nets trees) }
    ensures sets { (d : Design) (trees : List (List Piece)) → All IsRising trees → AreJoining d trees → AreSetsOf d (written_blocks d.grid d.nets trees) trees }
    ensures blocks { (d : Design) (trees : List (List Piece)) → HasBordersInRange d.grid → All IsRising trees → AreJoining d trees → AreBlocks (written_blocks d.grid d.nets trees) }
{}

/// Blocks that are routes of a design, and a certificate that claims what is true of the design and of the sets that they give
/// its nets, meet the design: the judge's answer is a yes, and what it measures is what the certificate states.
pub fn true_claims_are_accepted()
    ensures { (d : Design) (over : List Ground) (trees : List (List Piece)) (blocks : List Block) (cert : Cert)
        → AreRoutes d blocks → AreSetsOf d blocks trees → ClaimsTruly d over trees cert → Meet d over blocks cert }
{}

/// The text of a certificate that claims what is true, with prices within the limit, reads back: it is the text of this very
/// certificate. So its numbers are within the limits of its version.
pub fn true_certificates_read_back()
    ensures { (d : Design) (over : List Ground) (trees : List (List Piece)) (cert : Cert)
        → AreGrounds d.grid d.nets over → All IsRising trees → AreJoining d trees → All (λ price. price ≤ max_price) cert.prices
        → ClaimsTruly d over trees cert → IsCertOf (cert_text cert) cert }
{}

/// A verdict excludes every other: no two are given of the same routes and the same certificate, be they yes or no.
pub fn one_verdict()
    ensures { (d : Design) (over : List Ground) (blocks : List Block) (cert : Cert) (one other : Option Reason)
        → IsWithinLimits cert.budget → IsJudged d over blocks cert one → IsJudged d over blocks cert other → one ≡ other }
{}

/// Designs that no promise tells apart are judged alike, each over the grounds of its nets: the verdicts on routes and a
/// certificate are the same, and so is what the routes measure.
pub fn alike_designs_are_judged_alike()
    ensures judged { (d e : Design) (over others : List Ground) (blocks : List Block) (cert : Cert) (reason : Option Reason)
        → AreAlikeDesigns d e → AreGrounds d.grid d.nets over → AreGrounds e.grid e.nets others
        → IsJudged d over blocks cert reason ↔ IsJudged e others blocks cert reason }
    ensures measured { (d e : Design) (over others : List Ground) (blocks : List Block) (budget : Option ℕ) (one other : Measure) (few more : ℕ)
        → AreAlikeDesigns d e → AreGrounds d.grid d.nets over → AreGrounds e.grid e.nets others → ForSome budget (λ most. 0 < most)
        → AreMeasured d over blocks budget one few → AreMeasured e others blocks budget other more → (one ≡ other) × (few ≡ more) }
{}

/// The texts of a design, of routes and of a certificate have one verdict and one measure, whatever reads them. Where they meet the
/// design of who wrote them, they meet that of whoever reads them, and no verdict on them gives a reason.
pub fn texts_have_one_verdict()
    ensures verdict { (design routes certificate : List ℕ) (one other : Option Reason)
        → IsVerdictOn design routes certificate one → IsVerdictOn design routes certificate other → one ≡ other }
    ensures measured { (design routes certificate : List ℕ) (d e : Design) (over others : List Ground) (blocks more : List Block) (cert again : Cert)
        → AreTextsOf design routes certificate d over blocks cert → AreTextsOf design routes certificate e others more again
        → (one other : Measure) (few much : ℕ) → AreMeasured d over blocks (most_of cert.budget) one few
        → AreMeasured e others more (most_of again.budget) other much → (one ≡ other) × (few ≡ much) }
    ensures meet { (design routes certificate : List ℕ) (d e : Design) (over others : List Ground) (blocks more : List Block) (cert again : Cert)
        → AreTextsOf design routes certificate d over blocks cert → AreTextsOf design routes certificate e others more again
        → Meet d over blocks cert → Meet e others more again }
    ensures accepted { (design routes certificate : List ℕ) (d : Design) (over : List Ground) (blocks : List Block) (cert : Cert) (reason : Option Reason)
        → AreTextsOf design routes certificate d over blocks cert → Meet d over blocks cert → IsVerdictOn design routes certificate reason → reason ≡ None }
{}

/// Where routes and a certificate are accepted, they stay so with other prices of the edges and of the wirelength, and the bound at
/// these; none is stated only where none was. The new text reads back, and states a bound of the design.
pub fn certificates_with_another_bound_are_accepted()
    ensures accepted { (d : Design) (over : List Ground) (blocks : List Block) (cert : Cert) (budget : Option Budget) (prices : List ℕ) (found : Option Fraction)
        → IsJudged d over blocks cert None → most_of budget ≡ most_of cert.budget → ArePricesWith d.grid prices budget
        → IsBoundOrNone d prices budget found → (found ≡ None → cert.bound ≡ None)
        → IsJudged d over blocks (with_prices d.grid cert budget prices found) None }
    ensures reads_back { (d : Design) (cert : Cert) (budget : Option Budget) (prices : List ℕ) (found : Option Fraction)
        → IsCertWithin cert → most_of budget ≡ most_of cert.budget → ArePricesWith d.grid prices budget
        → IsBoundOrNone d prices budget found
        → IsCertOf (cert_text (with_prices d.grid cert budget prices found)) (with_prices d.grid cert budget prices found) }
    ensures bounds { (d : Design) (cert : Cert) (budget : Option Budget) (prices : List ℕ) (found : Option Fraction)
        → ArePricesWith d.grid prices budget → IsBoundOrNone d prices budget found
        → StatesBound d (with_prices d.grid cert budget prices found) }
{}

/// Where nothing can be objected to routes, nothing can be to them and the certificate of them alone. Its text reads back, and it
/// states a bound of the design.
pub fn certificates_of_routes_are_accepted()
    ensures accepted { (d : Design) (over : List Ground) (blocks : List Block) (cert : Cert)
        → AreRoutes d blocks → IsCertOfRoutes d over blocks cert → IsJudged d over blocks cert None }
    ensures within { (d : Design) (over : List Ground) (blocks : List Block) (cert : Cert)
        → AreGrounds d.grid d.nets over → IsCertOfRoutes d over blocks cert → IsCertWithin cert }
    ensures reads_back { (d : Design) (over : List Ground) (blocks : List Block) (cert : Cert)
        → AreGrounds d.grid d.nets over → IsCertOfRoutes d over blocks cert → IsCertOf (cert_text cert) cert }
    ensures bounds { (d : Design) (over : List Ground) (blocks : List Block) (cert : Cert)
        → IsCertOfRoutes d over blocks cert → StatesBound d cert }
{}
