//! The total priority weights of tasks, by which tries wait for room in their pools.
use crate::plans::plan_of;
use bf_pool::total_weights_of;
use std::test::Fail;

/// A diamond, whose last task counts once, not twice, for the first.
const DOWNSTREAM: &str = r#"{"dag_id":"d","schedule":"@daily","tasks":[
  {"id":"a"},{"id":"b","upstream":["a"]},{"id":"c","upstream":["a"]},{"id":"d","upstream":["b","c"]}]}"#;

/// A diamond with the other weight rules, and weights no two sums of which are alike.
const UPSTREAM: &str = r#"{"dag_id":"d","schedule":"@daily","tasks":[
  {"id":"a","priority_weight":1,"weight_rule":"upstream"},
  {"id":"b","priority_weight":20,"weight_rule":"upstream","upstream":["a"]},
  {"id":"c","priority_weight":300,"weight_rule":"absolute","upstream":["a"]},
  {"id":"d","priority_weight":4000,"weight_rule":"upstream","upstream":["b","c"]},
  {"id":"e","priority_weight":50000,"weight_rule":"downstream","upstream":["d"]},
  {"id":"f","priority_weight":0,"upstream":["e"]}]}"#;

#[test]
fn a_task_weighs_with_what_is_behind_it(rt: HostRuntime) -> Result<(), Fail> {
    let weights = total_weights_of(rt.alloc(), &plan_of(rt.alloc(), DOWNSTREAM)?)?;
    assert_eq!(rt; weights.as_slice(), [4, 2, 2, 1].as_slice());
    Ok(())
}

#[test]
fn a_task_weighs_by_its_rule(rt: HostRuntime) -> Result<(), Fail> {
    let weights = total_weights_of(rt.alloc(), &plan_of(rt.alloc(), UPSTREAM)?)?;
    assert_eq!(rt; weights.as_slice(), [1, 21, 300, 4321, 50000, 0].as_slice());
    Ok(())
}
