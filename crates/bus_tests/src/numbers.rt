//! Numbers of a bus where they stop.
use slack_base::{TOP, capped, raised};

/// A bus counts an ask as one more, and adds up its retries: neither count goes beyond `TOP`.
#[test]
fn counts_stop(rt: HostRuntime) {
    assert_eq!(rt; (raised(TOP - 1), raised(TOP)), (TOP, TOP));
    assert_eq!(rt; (capped(TOP), capped(TOP + 1)), (TOP, TOP));
}
