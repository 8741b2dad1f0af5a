//! A history that exists in proofs alone takes no memory.

use chronicle::Chronicle;

#[test]
fn a_history_takes_one_byte(rt: HostRuntime) {
    let mut history = Chronicle::<u64>::new();
    history.record(&1);
    history.record(&2);
    assert!(rt; size_of::<Chronicle<u64>>() == 1);
}
