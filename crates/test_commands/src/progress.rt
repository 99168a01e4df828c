// When it is said that a run still goes on.

use lrc_shell::Watch;

#[test]
fn a_run_that_is_over_is_not_said_to_go_on(rt: HostRuntime) {
    let watch = Watch::new();
    watch.end(&rt);
    assert!(rt; !watch.takes_long(&rt));
}

#[test]
fn a_run_of_two_seconds_is_said_to_go_on(rt: HostRuntime) {
    let watch = Watch::new();
    assert!(rt; watch.takes_long(&rt));
}
