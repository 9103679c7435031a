//! The worked example of the README, with the texts of its files.

use crate::runs::Run;
use std::alloc::Global;
use std::test::Fail;

/// Eight nets of 2 leave four tiles by three edges, which have room for 4 each.
const DESIGN: &str = "grid 6 4 2
vertical capacity 0 8
horizontal capacity 8 0
minimum width 1 1
minimum spacing 1 1
via spacing 1 1
0 0 10 10

num net 8
data_0 0 2 1
25 15 2
15 5 1
data_1 1 2 1
25 25 2
45 5 2
data_2 2 2 1
35 15 2
35 35 1
data_3 3 2 1
35 25 2
5 35 1
addr_0 4 2 1
25 15 1
35 5 2
addr_1 5 2 1
25 25 1
5 25 2
addr_2 6 2 1
35 15 1
15 35 1
addr_3 7 2 1
35 25 1
25 35 1

8
1 1 1 2 1 1 4
1 2 1 2 2 1 0
3 1 1 4 1 1 0
3 2 1 4 2 1 4
2 0 2 2 1 2 0
3 0 2 3 1 2 0
2 2 2 2 3 2 4
3 2 2 3 3 2 0
";

const ROUTES: &str = "data_0 0
(15,5,1)-(55,5,1)
(25,15,1)-(35,15,1)
(35,25,1)-(55,25,1)
(55,5,2)-(55,25,2)
(35,15,2)-(35,25,2)
(55,5,1)-(55,5,2)
(25,15,1)-(25,15,2)
(35,15,1)-(35,15,2)
(35,25,1)-(35,25,2)
(55,25,1)-(55,25,2)
!
data_1 1
(25,25,1)-(45,25,1)
(45,5,2)-(45,25,2)
(25,25,1)-(25,25,2)
(45,25,1)-(45,25,2)
!
data_2 2
(35,25,1)-(45,25,1)
(35,35,1)-(45,35,1)
(35,15,2)-(35,25,2)
(45,25,2)-(45,35,2)
(35,25,1)-(35,25,2)
(45,25,1)-(45,25,2)
(45,35,1)-(45,35,2)
!
data_3 3
(25,25,1)-(35,25,1)
(5,35,1)-(25,35,1)
(25,25,2)-(25,35,2)
(25,25,1)-(25,25,2)
(35,25,1)-(35,25,2)
(25,35,1)-(25,35,2)
!
addr_0 4
(15,5,1)-(35,5,1)
(15,15,1)-(25,15,1)
(15,5,2)-(15,15,2)
(15,5,1)-(15,5,2)
(35,5,1)-(35,5,2)
(15,15,1)-(15,15,2)
!
addr_1 5
(5,15,1)-(25,15,1)
(5,15,2)-(5,25,2)
(25,15,2)-(25,25,2)
(5,15,1)-(5,15,2)
(25,15,1)-(25,15,2)
(25,25,1)-(25,25,2)
!
addr_2 6
(15,15,1)-(35,15,1)
(15,15,2)-(15,35,2)
(15,15,1)-(15,15,2)
(15,35,1)-(15,35,2)
!
addr_3 7
(25,25,1)-(35,25,1)
(25,25,2)-(25,35,2)
(25,25,1)-(25,25,2)
(25,35,1)-(25,35,2)
!
";

const CERT: &str = "grouter certificate 1
nets 8
forced 0
overflow 4
wirelength 59
peak 3/2
bound 178793/550306
prices 33
3518
4291
4291
3518
3518
3697
11556
4291
3518
3885
6703
7043
3518
4509
5232
3697
4083
3518
3518
5232
4291
3518
3697
4083
4291
4291
4291
3518
3697
4083
12758
4083
3518
";

/// What is left where no call fails: the status, what is found, and a certificate. In every mixture the three edges have 16 of
/// 12, and in every routing 4 too much.
const LEFT: &str = "0
bound 4/3;bottleneck 3;(15,15,1)-(25,15,1) 32768;(35,25,1)-(45,25,1) 32768;(25,25,2)-(25,35,2) 32768;overflow 4;cut 3;(15,15,1)-(25,15,1) 32768;(35,25,1)-(45,25,1) 32768;(25,25,2)-(25,35,2) 32768;routes 4;
-
grouter certificate 1;nets 8;forced 0;overflow 4;wirelength 59;peak 3/2;bound 4/3;prices 33;0;0;0;0;0;0;32768;0;0;0;0;32768;0;0;0;0;0;0;0;0;0;0;0;0;0;0;0;0;0;0;32768;0;0;";

/// The run of `unavoidable` on it.
pub fn few_exits(alloc: Global) -> Result<Run, Fail> {
    let mut texts = Vec::new(alloc);
    for text in [DESIGN, ROUTES, CERT] {
        texts.push(Vec::from_slice(alloc, text.as_bytes())?)?;
    }
    Ok(Run {
        line: "unavoidable a.gr a.routes a.cert new.cert",
        ports: "In RoutesIn CertIn CertOut",
        texts,
        rest: LEFT,
    })
}
