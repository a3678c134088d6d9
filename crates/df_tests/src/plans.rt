//! Plans that no document makes.
use crate::given::schemas;
use df_plan::{CheckedPlan, Plan, PlanFault};
use df_value::CellType::Int;
use std::test::Fail;

#[test]
fn a_plan_names_frames_that_are_there(rt: HostRuntime) -> Result<(), Fail> {
    let alloc = rt.alloc();
    let frames = schemas(alloc, &[Int])?;
    let fault = CheckedPlan::new(alloc, Plan::Scan(1), frames.as_slice()).err();
    assert!(rt; fault == Some(PlanFault::NoFrame(1)));
    Ok(())
}
