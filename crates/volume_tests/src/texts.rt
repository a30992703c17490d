//! Plans for tests.

use plan::{CheckedPlan, check_plan, read_plan};
use std::alloc::Global;
use std::sync::Arc;
use volume_model::Fault;

/// One group of six members, of which three read and four write.
pub const SIX: &[u8] =
    b"{\"format\":1,\"lal\":10,\"groups\":[{\"configurations\":[{\"parent\":null,\"members\":[0,1,2,3,4,5],\"full\":[0,1,2,3,4,5],\
\"read\":{\"k\":3,\"of\":\"all\"},\"write\":{\"k\":4,\"of\":\"all\"},\"meets\":{\"rule\":\"match\",\"left\":0,\"right\":0,\
\"pairs\":[[0,0],[1,1],[2,2],[3,3],[4,4],[5,5]],\"then\":[\
{\"rule\":\"clash\",\"left\":0,\"right\":0},{\"rule\":\"clash\",\"left\":0,\"right\":0},{\"rule\":\"clash\",\"left\":0,\"right\":0},\
{\"rule\":\"clash\",\"left\":0,\"right\":0},{\"rule\":\"clash\",\"left\":0,\"right\":0},{\"rule\":\"clash\",\"left\":0,\"right\":0}]},\"step\":null}]}]}";

/// Two groups of one member each, which reads and writes alone. The first exists at birth.
pub const GROWING: &[u8] = b"{\"format\":3,\"lal\":10,\"born\":1,\"groups\":[\
{\"configurations\":[{\"parent\":null,\"members\":[0],\"full\":[0],\"read\":0,\"write\":0,\"meets\":{\"rule\":\"clash\",\"left\":0,\"right\":0},\"step\":null}]},\
{\"configurations\":[{\"parent\":null,\"members\":[0],\"full\":[0],\"read\":0,\"write\":0,\"meets\":{\"rule\":\"clash\",\"left\":0,\"right\":0},\"step\":null}]}]}";

/// Returns the checked plan of a text: `Malformed` if it isn't a plan, `Certificate` if the plan isn't certified.
pub fn checked(alloc: Global, text: &[u8]) -> Result<Arc<CheckedPlan>, Fault> {
    let Ok(plan) = read_plan(alloc, text) else {
        return Err(Fault::Malformed);
    };
    let Ok(checked) = check_plan(alloc, plan) else {
        return Err(Fault::Certificate);
    };
    Ok(Arc::new(alloc, checked)?)
}
