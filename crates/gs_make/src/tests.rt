use crate::generated_runs_end_well;

#[test]
fn the_law_may_be_used_again() {
    generated_runs_end_well();
    generated_runs_end_well();
}
