//! What is drawn of routes.

use crate::programs::Program;
use crate::runs::runs_agree;
use std::test::Fail;

/// The loads were worked out by hand, and the texts from them by a plain program of another make.
const DRAWN: &str =
    "# The third net of the gap is too many, so the edge has 150 %. The two closed edges are hatched, and the priced one is the cut.
4 a.gr a.routes a.svg --cut a.cert
GAP|a 0;(5,15,1)-(15,15,1);(15,5,1)-(25,5,1);(5,5,1)-(5,15,1);(15,5,1)-(15,15,1);!;b 1;(5,15,1)-(25,15,1);!;c 2;(5,15,1)-(15,15,1);(15,25,1)-(25,25,1);(5,15,1)-(5,25,1);(15,15,1)-(15,25,1);!;|grouter certificate 1;nets 3;forced 0;overflow 2;wirelength 10;peak 3/2;bound 3/2;prices 10;0;0;0;0;32768;0;0;0;0;0;
0
nets 3;forced 0;beyond 0;overflow 2;wirelength 10;peak 3/2;
-
-
-
-
<?xml version=\"1.0\" encoding=\"UTF-8\"?>;<svg xmlns=\"http://www.w3.org/2000/svg\" version=\"1.1\" width=\"1480\" height=\"740\" viewBox=\"0 0 1480 740\" font-family=\"sans-serif\" font-size=\"14\" fill=\"#222\">;<title>a.gr</title>;<rect width=\"1480\" height=\"740\" fill=\"#fff\"/>;<text x=\"20\" y=\"34\" font-size=\"20\">a.gr</text>;<text x=\"20\" y=\"58\">overflow 2, wirelength 10, peak 3/2</text>;<text x=\"20\" y=\"78\">load by capacity on layers 1 to 1</text>;<g transform=\"translate(20,120)\">;<text y=\"-10\">edges along x</text>;<g transform=\"translate(0,100) scale(200)\" fill=\"none\" shape-rendering=\"crispEdges\">;<path stroke=\"#fcffa4\" d=\"M1 2h1M1 1h1M1 0h1\"/>;<path stroke=\"#f6d746\" d=\"\"/>;<path stroke=\"#fca50a\" d=\"\"/>;<path stroke=\"#f37819\" d=\"\"/>;<path stroke=\"#dd513a\" d=\"\"/>;<path stroke=\"#bc3754\" d=\"\"/>;<path stroke=\"#932667\" d=\"\"/>;<path stroke=\"#6a176e\" d=\"\"/>;<path stroke=\"#420a68\" d=\"M0 1h1\"/>;<path stroke=\"#160b39\" d=\"\"/>;<path stroke=\"#000004\" d=\"\"/>;<path stroke=\"#777\" stroke-width=\".2\" shape-rendering=\"auto\" d=\"M0 2h1M0 0h1\"/>;<path stroke=\"#777\" stroke-width=\".2\" stroke-dasharray=\".3 .7\" shape-rendering=\"auto\" d=\"\"/>;</g>;<rect fill=\"none\" stroke=\"#999\" width=\"600\" height=\"600\"/>;<path class=\"overfull\" transform=\"translate(-1,-1)\" fill=\"none\" stroke=\"#00a0ff\" stroke-width=\"2\" d=\"M0 200h202v202h-202z\"/>;<path class=\"cut\" fill=\"none\" stroke=\"#009e73\" stroke-width=\"4\" d=\"M200 200v200\"/>;</g>;<g transform=\"translate(660,120)\">;<text y=\"-10\">edges along y</text>;<g transform=\"translate(0,100) scale(200)\" fill=\"none\" shape-rendering=\"crispEdges\">;<path stroke=\"#fcffa4\" d=\"M0 2h2M0 1h2\"/>;<path stroke=\"#f6d746\" d=\"\"/>;<path stroke=\"#fca50a\" d=\"\"/>;<path stroke=\"#f37819\" d=\"\"/>;<path stroke=\"#dd513a\" d=\"\"/>;<path stroke=\"#bc3754\" d=\"\"/>;<path stroke=\"#932667\" d=\"\"/>;<path stroke=\"#6a176e\" d=\"\"/>;<path stroke=\"#420a68\" d=\"\"/>;<path stroke=\"#160b39\" d=\"\"/>;<path stroke=\"#000004\" d=\"\"/>;<path stroke=\"#777\" stroke-width=\".2\" shape-rendering=\"auto\" d=\"\"/>;<path stroke=\"#777\" stroke-width=\".2\" stroke-dasharray=\".3 .7\" shape-rendering=\"auto\" d=\"\"/>;</g>;<rect fill=\"none\" stroke=\"#999\" width=\"600\" height=\"600\"/>;<path class=\"overfull\" transform=\"translate(-1,-1)\" fill=\"none\" stroke=\"#00a0ff\" stroke-width=\"2\" d=\"\"/>;<path class=\"cut\" fill=\"none\" stroke=\"#009e73\" stroke-width=\"4\" d=\"M200 200v200\"/>;</g>;<g transform=\"translate(1300,120)\">;<text y=\"-10\">load by capacity</text>;<rect width=\"24\" height=\"16\" fill=\"#fff\" stroke=\"#999\"/><text x=\"34\" y=\"13\">no load</text>;<rect y=\"20\" width=\"24\" height=\"16\" fill=\"#fcffa4\"/><text x=\"34\" y=\"33\">up to 25 %</text>;<rect y=\"40\" width=\"24\" height=\"16\" fill=\"#f6d746\"/><text x=\"34\" y=\"53\">up to 50 %</text>;<rect y=\"60\" width=\"24\" height=\"16\" fill=\"#fca50a\"/><text x=\"34\" y=\"73\">up to 75 %</text>;<rect y=\"80\" width=\"24\" height=\"16\" fill=\"#f37819\"/><text x=\"34\" y=\"93\">up to 100 %</text>;<rect y=\"100\" width=\"24\" height=\"16\" fill=\"#dd513a\"/><text x=\"34\" y=\"113\">up to 105 %</text>;<rect y=\"120\" width=\"24\" height=\"16\" fill=\"#bc3754\"/><text x=\"34\" y=\"133\">up to 110 %</text>;<rect y=\"140\" width=\"24\" height=\"16\" fill=\"#932667\"/><text x=\"34\" y=\"153\">up to 120 %</text>;<rect y=\"160\" width=\"24\" height=\"16\" fill=\"#6a176e\"/><text x=\"34\" y=\"173\">up to 135 %</text>;<rect y=\"180\" width=\"24\" height=\"16\" fill=\"#420a68\"/><text x=\"34\" y=\"193\">up to 150 %</text>;<rect y=\"200\" width=\"24\" height=\"16\" fill=\"#160b39\"/><text x=\"34\" y=\"213\">up to 200 %</text>;<rect y=\"220\" width=\"24\" height=\"16\" fill=\"#000004\"/><text x=\"34\" y=\"233\">above 200 %</text>;<rect x=\"6\" y=\"248\" width=\"12\" height=\"12\" fill=\"none\" stroke=\"#00a0ff\"/><text x=\"34\" y=\"259\">an edge is overfull</text>;<path stroke=\"#777\" d=\"M0 268h24M0 272h24M0 276h24M0 280h24\"/><text x=\"34\" y=\"279\">closed</text>;<path stroke=\"#777\" stroke-dasharray=\"2 4\" d=\"M0 288h24M0 292h24M0 296h24M0 300h24\"/><text x=\"34\" y=\"299\">closed on a layer</text>;<path stroke=\"#009e73\" stroke-width=\"4\" d=\"M0 314h24\"/><text x=\"34\" y=\"319\">cut of the certificate</text>;</g>;</svg>;

# Both layers of the box.
3 a.gr a.routes a.csv --layers
BOX|a 0;(5,5,1)-(15,5,1);(15,5,2)-(15,15,2);(15,5,1)-(15,5,2);(15,15,1)-(15,15,2);!;b 1;(15,15,1)-(25,15,1);(25,5,2)-(25,15,2);(25,5,1)-(25,5,2);(25,15,1)-(25,15,2);!;c 2;(5,15,1)-(15,15,1);(5,15,2)-(5,25,2);(5,15,1)-(5,15,2);(5,25,1)-(5,25,2);!;d 3;(15,25,1)-(25,25,1);(15,15,2)-(15,25,2);(15,15,1)-(15,15,2);(15,25,1)-(15,25,2);!;e 4;(5,15,1)-(15,15,1);!;|
0
nets 5;forced 0;beyond 0;overflow 2;wirelength 17;peak 2/1;
-
-
-
-
column,row,direction,load,capacity,load_1,capacity_1,load_2,capacity_2;0,0,x,2,20,2,20,0,0;0,0,y,0,20,0,0,0,20;1,0,x,0,20,0,20,0,0;1,0,y,2,2,0,0,2,2;2,0,y,2,20,0,0,2,20;0,1,x,4,2,4,2,0,0;0,1,y,2,20,0,0,2,20;1,1,x,2,2,2,2,0,0;1,1,y,2,2,0,0,2,2;2,1,y,0,20,0,0,0,20;0,2,x,0,20,0,20,0,0;1,2,x,2,20,2,20,0,0;

# The upper layer alone.
3 a.gr a.routes a.csv --layer 2
BOX|a 0;(5,5,1)-(15,5,1);(15,5,2)-(15,15,2);(15,5,1)-(15,5,2);(15,15,1)-(15,15,2);!;b 1;(15,15,1)-(25,15,1);(25,5,2)-(25,15,2);(25,5,1)-(25,5,2);(25,15,1)-(25,15,2);!;c 2;(5,15,1)-(15,15,1);(5,15,2)-(5,25,2);(5,15,1)-(5,15,2);(5,25,1)-(5,25,2);!;d 3;(15,25,1)-(25,25,1);(15,15,2)-(15,25,2);(15,15,1)-(15,15,2);(15,25,1)-(15,25,2);!;e 4;(5,15,1)-(15,15,1);!;|
0
nets 5;forced 0;beyond 0;overflow 2;wirelength 17;peak 2/1;
-
-
-
-
column,row,direction,load,capacity;0,0,x,0,0;0,0,y,0,20;1,0,x,0,0;1,0,y,2,2;2,0,y,2,20;0,1,x,0,0;0,1,y,2,20;1,1,x,0,0;1,1,y,2,2;2,1,y,0,20;0,2,x,0,0;1,2,x,0,0;

# A row has no edges along y.
3 a.gr a.routes a.csv
ROW|a 0;(5,5,1)-(25,5,1);!;|
0
nets 1;forced 0;beyond 0;overflow 0;wirelength 2;peak 1/2;
-
-
-
-
column,row,direction,load,capacity;0,0,x,2,4;1,0,x,2,4;";

#[test]
fn what_is_asked_for_is_drawn(rt: HostRuntime) -> Result<(), Fail> {
    runs_agree(Program::CongestionMap, &rt, rt.alloc(), DRAWN)
}
