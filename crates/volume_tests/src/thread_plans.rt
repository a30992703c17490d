//! Plans for tests.

use plan::{CheckedPlan, Plan, check_plan, read_plan};
use std::alloc::Global;
use std::sync::Arc;
use volume_model::Fault;

/// One group of six members, of which three read and four write.
pub const SIX: &str =
    "{\"format\":1,\"lal\":10,\"groups\":[{\"configurations\":[{\"parent\":null,\"members\":[0,1,2,3,4,5],\"full\":[0,1,2,3,4,5],\
\"read\":{\"k\":3,\"of\":\"all\"},\"write\":{\"k\":4,\"of\":\"all\"},\"meets\":{\"rule\":\"match\",\"left\":0,\"right\":0,\
\"pairs\":[[0,0],[1,1],[2,2],[3,3],[4,4],[5,5]],\"then\":[\
{\"rule\":\"clash\",\"left\":0,\"right\":0},{\"rule\":\"clash\",\"left\":0,\"right\":0},{\"rule\":\"clash\",\"left\":0,\"right\":0},\
{\"rule\":\"clash\",\"left\":0,\"right\":0},{\"rule\":\"clash\",\"left\":0,\"right\":0},{\"rule\":\"clash\",\"left\":0,\"right\":0}]},\"step\":null}]}]}";

/// Two groups of six members each.
pub const TWO_GROUPS: &str = r#"{"format":1,"lal":10,"groups":[{"configurations":[
 {"parent":null,"members":[0,1,2,3,4,5],"full":[0,1,2,3,4,5],
  "read":{"k":3,"of":"all"},"write":{"k":4,"of":"all"},
  "meets":{"rule":"match","left":0,"right":0,
   "pairs":[[0,0],[1,1],[2,2],[3,3],[4,4],[5,5]],"then":[
    {"rule":"clash","left":0,"right":0},{"rule":"clash","left":0,"right":0},
    {"rule":"clash","left":0,"right":0},{"rule":"clash","left":0,"right":0},
    {"rule":"clash","left":0,"right":0},{"rule":"clash","left":0,"right":0}]},
  "step":null}]},
{"configurations":[
 {"parent":null,"members":[0,1,2,3,4,5],"full":[0,1,2,3,4,5],
  "read":{"k":3,"of":"all"},"write":{"k":4,"of":"all"},
  "meets":{"rule":"match","left":0,"right":0,
   "pairs":[[0,0],[1,1],[2,2],[3,3],[4,4],[5,5]],"then":[
    {"rule":"clash","left":0,"right":0},{"rule":"clash","left":0,"right":0},
    {"rule":"clash","left":0,"right":0},{"rule":"clash","left":0,"right":0},
    {"rule":"clash","left":0,"right":0},{"rule":"clash","left":0,"right":0}]},
  "step":null}]}]}"#;

/// Six members, and a child that adds member 6.
pub const REPLACED: &str = r#"{"format":1,"lal":10,"groups":[{"configurations":[
{"parent":null,"members":[0,1,2,3,4,5],"full":[0,1,2,3,4,5],"read":{"k":3,"of":"all"},"write":{"k":4,"of":"all"},"meets":{"rule":"match","left":0,"right":0,"pairs":[[0,0],[1,1],[2,2],[3,3],[4,4],[5,5]],"then":[{"rule":"clash","left":0,"right":0},{"rule":"clash","left":0,"right":0},{"rule":"clash","left":0,"right":0},{"rule":"clash","left":0,"right":0},{"rule":"clash","left":0,"right":0},{"rule":"clash","left":0,"right":0}]},"step":null},
{"parent":0,"members":[0,1,2,3,4,5,6],"full":[0,1,2,3,4,5,6],"read":{"k":1,"of":[{"k":3,"of":[0,1,2,3,4,5]},{"k":3,"of":[0,1,2,3,4,6]}]},"write":{"k":2,"of":[{"k":4,"of":[0,1,2,3,4,5]},{"k":4,"of":[0,1,2,3,4,6]}]},"meets":{"rule":"open","side":"right","item":0,"then":{"rule":"pick","side":"left","item":0,"children":[0,1],"then":[{"rule":"match","left":0,"right":0,"pairs":[[0,0],[1,1],[2,2],[3,3],[4,4],[5,5]],"then":[{"rule":"clash","left":0,"right":1},{"rule":"clash","left":0,"right":1},{"rule":"clash","left":0,"right":1},{"rule":"clash","left":0,"right":1},{"rule":"clash","left":0,"right":1},{"rule":"clash","left":0,"right":1}]},{"rule":"match","left":0,"right":1,"pairs":[[0,0],[1,1],[2,2],[3,3],[4,4],[5,5]],"then":[{"rule":"clash","left":0,"right":1},{"rule":"clash","left":0,"right":1},{"rule":"clash","left":0,"right":1},{"rule":"clash","left":0,"right":1},{"rule":"clash","left":0,"right":1},{"rule":"clash","left":0,"right":1}]}]}},"step":{"rule":"pick","side":"left","item":0,"children":[0,1],"then":[{"rule":"match","left":0,"right":0,"pairs":[[0,0],[1,1],[2,2],[3,3],[4,4],[5,5]],"then":[{"rule":"clash","left":0,"right":0},{"rule":"clash","left":0,"right":0},{"rule":"clash","left":0,"right":0},{"rule":"clash","left":0,"right":0},{"rule":"clash","left":0,"right":0},{"rule":"clash","left":0,"right":0}]},{"rule":"match","left":0,"right":0,"pairs":[[0,0],[1,1],[2,2],[3,3],[4,4],[5,5]],"then":[{"rule":"clash","left":0,"right":0},{"rule":"clash","left":0,"right":0},{"rule":"clash","left":0,"right":0},{"rule":"clash","left":0,"right":0},{"rule":"clash","left":0,"right":0},{"rule":"dead","side":"left","item":0}]}]}}
]}]}"#;

/// The same, and a child of the child that adds member 7.
pub const WIDE: &str = r#"{"format":1,"lal":10,"groups":[{"configurations":[
{"parent":null,"members":[0,1,2,3,4,5],"full":[0,1,2,3,4,5],"read":{"k":3,"of":"all"},"write":{"k":4,"of":"all"},"meets":{"rule":"match","left":0,"right":0,"pairs":[[0,0],[1,1],[2,2],[3,3],[4,4],[5,5]],"then":[{"rule":"clash","left":0,"right":0},{"rule":"clash","left":0,"right":0},{"rule":"clash","left":0,"right":0},{"rule":"clash","left":0,"right":0},{"rule":"clash","left":0,"right":0},{"rule":"clash","left":0,"right":0}]},"step":null},
{"parent":0,"members":[0,1,2,3,4,5,6],"full":[0,1,2,3,4,5,6],"read":{"k":1,"of":[{"k":3,"of":[0,1,2,3,4,5]},{"k":3,"of":[0,1,2,3,4,6]}]},"write":{"k":2,"of":[{"k":4,"of":[0,1,2,3,4,5]},{"k":4,"of":[0,1,2,3,4,6]}]},"meets":{"rule":"open","side":"right","item":0,"then":{"rule":"pick","side":"left","item":0,"children":[0,1],"then":[{"rule":"match","left":0,"right":0,"pairs":[[0,0],[1,1],[2,2],[3,3],[4,4],[5,5]],"then":[{"rule":"clash","left":0,"right":1},{"rule":"clash","left":0,"right":1},{"rule":"clash","left":0,"right":1},{"rule":"clash","left":0,"right":1},{"rule":"clash","left":0,"right":1},{"rule":"clash","left":0,"right":1}]},{"rule":"match","left":0,"right":1,"pairs":[[0,0],[1,1],[2,2],[3,3],[4,4],[5,5]],"then":[{"rule":"clash","left":0,"right":1},{"rule":"clash","left":0,"right":1},{"rule":"clash","left":0,"right":1},{"rule":"clash","left":0,"right":1},{"rule":"clash","left":0,"right":1},{"rule":"clash","left":0,"right":1}]}]}},"step":{"rule":"pick","side":"left","item":0,"children":[0,1],"then":[{"rule":"match","left":0,"right":0,"pairs":[[0,0],[1,1],[2,2],[3,3],[4,4],[5,5]],"then":[{"rule":"clash","left":0,"right":0},{"rule":"clash","left":0,"right":0},{"rule":"clash","left":0,"right":0},{"rule":"clash","left":0,"right":0},{"rule":"clash","left":0,"right":0},{"rule":"clash","left":0,"right":0}]},{"rule":"match","left":0,"right":0,"pairs":[[0,0],[1,1],[2,2],[3,3],[4,4],[5,5]],"then":[{"rule":"clash","left":0,"right":0},{"rule":"clash","left":0,"right":0},{"rule":"clash","left":0,"right":0},{"rule":"clash","left":0,"right":0},{"rule":"clash","left":0,"right":0},{"rule":"dead","side":"left","item":0}]}]}},
{"parent":1,"members":[0,1,2,3,4,5,6,7],"full":[0,1,2,3,4,5,6,7],"read":{"k":1,"of":[{"k":3,"of":[0,1,2,3,4,5]},{"k":3,"of":[0,1,2,3,4,6]},{"k":3,"of":[0,1,2,3,5,7]},{"k":3,"of":[0,1,2,3,6,7]}]},"write":{"k":4,"of":[{"k":4,"of":[0,1,2,3,4,5]},{"k":4,"of":[0,1,2,3,4,6]},{"k":4,"of":[0,1,2,3,5,7]},{"k":4,"of":[0,1,2,3,6,7]}]},"meets":{"rule":"open","side":"right","item":0,"then":{"rule":"pick","side":"left","item":0,"children":[0,1,2,3],"then":[{"rule":"match","left":0,"right":0,"pairs":[[0,0],[1,1],[2,2],[3,3],[4,4],[5,5]],"then":[{"rule":"clash","left":0,"right":3},{"rule":"clash","left":0,"right":3},{"rule":"clash","left":0,"right":3},{"rule":"clash","left":0,"right":3},{"rule":"clash","left":0,"right":3},{"rule":"clash","left":0,"right":3}]},{"rule":"match","left":0,"right":1,"pairs":[[0,0],[1,1],[2,2],[3,3],[4,4],[5,5]],"then":[{"rule":"clash","left":0,"right":3},{"rule":"clash","left":0,"right":3},{"rule":"clash","left":0,"right":3},{"rule":"clash","left":0,"right":3},{"rule":"clash","left":0,"right":3},{"rule":"clash","left":0,"right":3}]},{"rule":"match","left":0,"right":2,"pairs":[[0,0],[1,1],[2,2],[3,3],[4,4],[5,5]],"then":[{"rule":"clash","left":0,"right":3},{"rule":"clash","left":0,"right":3},{"rule":"clash","left":0,"right":3},{"rule":"clash","left":0,"right":3},{"rule":"clash","left":0,"right":3},{"rule":"clash","left":0,"right":3}]},{"rule":"match","left":0,"right":3,"pairs":[[0,0],[1,1],[2,2],[3,3],[4,4],[5,5]],"then":[{"rule":"clash","left":0,"right":3},{"rule":"clash","left":0,"right":3},{"rule":"clash","left":0,"right":3},{"rule":"clash","left":0,"right":3},{"rule":"clash","left":0,"right":3},{"rule":"clash","left":0,"right":3}]}]}},"step":{"rule":"open","side":"right","item":0,"then":{"rule":"pick","side":"left","item":0,"children":[0,1,2,3],"then":[{"rule":"match","left":0,"right":0,"pairs":[[0,0],[1,1],[2,2],[3,3],[4,4],[5,5]],"then":[{"rule":"clash","left":0,"right":1},{"rule":"clash","left":0,"right":1},{"rule":"clash","left":0,"right":1},{"rule":"clash","left":0,"right":1},{"rule":"clash","left":0,"right":1},{"rule":"clash","left":0,"right":1}]},{"rule":"match","left":0,"right":1,"pairs":[[0,0],[1,1],[2,2],[3,3],[4,4],[5,5]],"then":[{"rule":"clash","left":0,"right":1},{"rule":"clash","left":0,"right":1},{"rule":"clash","left":0,"right":1},{"rule":"clash","left":0,"right":1},{"rule":"clash","left":0,"right":1},{"rule":"clash","left":0,"right":1}]},{"rule":"match","left":0,"right":0,"pairs":[[0,0],[1,1],[2,2],[3,3],[4,5],[5,4]],"then":[{"rule":"clash","left":0,"right":1},{"rule":"clash","left":0,"right":1},{"rule":"clash","left":0,"right":1},{"rule":"clash","left":0,"right":1},{"rule":"clash","left":0,"right":1},{"rule":"dead","side":"left","item":0}]},{"rule":"match","left":0,"right":1,"pairs":[[0,0],[1,1],[2,2],[3,3],[4,5],[5,4]],"then":[{"rule":"clash","left":0,"right":1},{"rule":"clash","left":0,"right":1},{"rule":"clash","left":0,"right":1},{"rule":"clash","left":0,"right":1},{"rule":"clash","left":0,"right":1},{"rule":"dead","side":"left","item":0}]}]}}}
]}]}"#;

/// Three copies, of which two read and two write. The child of the root adds member 3: its read quorums are those of 0,
/// 1 and 2 or those of 0, 1 and 3, its write quorums those of both.
pub const THREE_COPIES: &str = r#"{"format":1,"lal":1000,"groups":[{"configurations":[
{"parent":null,"members":[0,1,2],"full":[0,1,2],"read":{"k":2,"of":"all"},"write":{"k":2,"of":"all"},
"meets":{"rule":"match","left":0,"right":0,"pairs":[[0,0],[1,1],[2,2]],"then":[
{"rule":"clash","left":0,"right":0},{"rule":"clash","left":0,"right":0},{"rule":"clash","left":0,"right":0}]},"step":null},
{"parent":0,"members":[0,1,2,3],"full":[0,1,2,3],
"read":{"k":1,"of":[{"k":2,"of":[0,1,2]},{"k":2,"of":[0,1,3]}]},
"write":{"k":2,"of":[{"k":2,"of":[0,1,2]},{"k":2,"of":[0,1,3]}]},
"meets":{"rule":"match","left":0,"right":0,"pairs":[[0,0],[1,1]],"then":[
{"rule":"match","left":0,"right":0,"pairs":[[0,0],[1,1],[2,2]],"then":[
{"rule":"clash","left":0,"right":0},{"rule":"clash","left":0,"right":0},{"rule":"clash","left":0,"right":0}]},
{"rule":"match","left":0,"right":0,"pairs":[[0,0],[1,1],[2,2]],"then":[
{"rule":"clash","left":0,"right":0},{"rule":"clash","left":0,"right":0},{"rule":"clash","left":0,"right":0}]}]},
"step":{"rule":"pick","side":"left","item":0,"children":[0,1],"then":[
{"rule":"match","left":0,"right":0,"pairs":[[0,0],[1,1],[2,2]],"then":[
{"rule":"clash","left":0,"right":0},{"rule":"clash","left":0,"right":0},{"rule":"clash","left":0,"right":0}]},
{"rule":"match","left":0,"right":0,"pairs":[[0,0],[1,1],[2,2]],"then":[
{"rule":"clash","left":0,"right":0},{"rule":"clash","left":0,"right":0},{"rule":"dead","side":"left","item":0}]}]}}
]}]}"#;

/// Returns the plan of a text; `Malformed` if it isn't one.
pub fn plan_of(alloc: Global, text: &str) -> Result<Plan, Fault> {
    match read_plan(alloc, text.as_bytes()) {
        Ok(plan) => Ok(plan),
        Err(_) => Err(Fault::Malformed),
    }
}

/// Returns the checked plan of a text; `Certificate` if it has a fault.
pub fn checked(alloc: Global, text: &str) -> Result<Arc<CheckedPlan>, Fault> {
    match check_plan(alloc, plan_of(alloc, text)?) {
        Ok(checked) => Ok(Arc::new(alloc, checked)?),
        Err(_) => Err(Fault::Certificate),
    }
}
