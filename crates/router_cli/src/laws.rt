//! What the words of the contracts amount to. Nothing is computed here: each contract is a law.

ghost use Rattle.std.specs.Prelude.{◌≡◌, ◌≤◌, ◌<◌, ℕ, List, All, Ok, length};
ghost use Rattle.cert_text.specs.declared.cert.Cert.{Cert};
ghost use Rattle.cert_text.specs.CertText.{cert_text};
ghost use Rattle.grid_base.specs.declared.piece.Piece.{Piece};
ghost use Rattle.grid_graph.specs.declared.design.Design.{Design};
ghost use Rattle.grid_graph.specs.declared.ground.Ground.{Ground};
ghost use Rattle.grid_graph.specs.Borders.{HasBordersInRange};
ghost use Rattle.grid_graph.specs.Grounds.{AreGrounds};
ghost use Rattle.ispd_reader.specs.Designs.{IsDesignOfText};
ghost use Rattle.routing_stages.specs.declared.settings.Settings.{Settings};
ghost use Rattle.routing_stages.specs.Settings.{AreSettings};
ghost use Rattle.route_text.specs.declared.block.Block.{Block};
ghost use Rattle.route_text.specs.Blocks.{blocks_of};
ghost use Rattle.route_text.specs.ReadBack.{AreBlocksOf, IsSet};
ghost use Rattle.route_text.specs.RouteText.{routes_text};
ghost use Rattle.sharing_runs.specs.RepairRuns.{routing_overflow};
ghost use Rattle.router_cli.specs.Headline.{IsTrueOf};
ghost use Rattle.router_cli.specs.RouterRuns.{IsRouterRun};
ghost use Rattle.router_cli.specs.TextsMeet.{TextsMeet};

/// What is written of a design with borders in range reads back: where a text names the design, the route text of one set per net
/// is read as one block per net, in file order, which has the net's name and id and names the pieces of the net's set.
pub fn routes_of_designs_read_back()
    ensures { (text : List ℕ) (d : Design) (trees : List (List Piece))
        → IsDesignOfText text d
        → HasBordersInRange d.grid
        → length trees ≡ length d.nets
        → All (IsSet d.grid) trees
        → (blocks : List Block) × (blocks_of (routes_text d.grid d.nets trees) ≡ Ok blocks) × AreBlocksOf d.grid d.nets trees blocks }
{}

/// What the rounds of a run amount to: the written sets have no more overflow than the picked ones, there is no round where these have
/// none, there are at most as many as the settings say, and fewer only where no overflow is left.
pub fn repair_adds_no_overflow()
    ensures no_more { (d : Design) (s : Settings) (trees : List (List Piece)) (prices : List ℕ) (rounded rounds : ℕ)
        → IsRouterRun d s trees prices rounded rounds
        → routing_overflow d trees ≤ rounded }
    ensures none { (d : Design) (s : Settings) (trees : List (List Piece)) (prices : List ℕ) (rounded rounds : ℕ)
        → IsRouterRun d s trees prices rounded rounds
        → rounded ≡ 0 → rounds ≡ 0 }
    ensures most { (d : Design) (s : Settings) (trees : List (List Piece)) (prices : List ℕ) (rounded rounds : ℕ)
        → IsRouterRun d s trees prices rounded rounds
        → rounds ≤ s.rounds }
    ensures fewer { (d : Design) (s : Settings) (trees : List (List Piece)) (prices : List ℕ) (rounded rounds : ℕ)
        → IsRouterRun d s trees prices rounded rounds
        → rounds < s.rounds → routing_overflow d trees ≡ 0 }
{}

/// The two texts of a run meet their design, where its borders are in range: they read as blocks and a certificate to which nothing
/// can be objected, and the routes measure what the certificate states.
pub fn texts_of_runs_meet_their_design()
    ensures { (text : List ℕ) (d : Design) (s : Settings) (over : List Ground) (trees : List (List Piece)) (prices : List ℕ) (rounded rounds : ℕ) (cert : Cert)
        → IsDesignOfText text d
        → HasBordersInRange d.grid
        → AreSettings s
        → AreGrounds d.grid d.nets over
        → IsTrueOf d s trees prices rounded rounds cert
        → TextsMeet d over (routes_text d.grid d.nets trees) (cert_text cert) cert }
{}
