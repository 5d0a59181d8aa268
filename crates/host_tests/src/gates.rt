//! The gate that is open.
use zs_host::{Gate, OpenGate, Point};

#[test]
fn an_open_gate_lets_everyone_pass() {
    OpenGate.pass(3, Point::Access { core: 3 });
    OpenGate.pass(0, Point::Fire { domain: 1 });
}
