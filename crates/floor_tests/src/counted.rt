//! A counter of steps has no size and counts each tick.

ghost use Rattle.std.specs.Prelude.{◌≡◌, ◌<◌};

use chronicle::Steps;
use std::marker::Brand;
use std::sync::ledger::{Blank, Ledger};

// Two steps, counted.
fn two_steps<L: Ledger>(blank: Blank)
    requires name { blank.name ≡ L.name }
    requires parts { blank.parts ≡ L.parts }
    requires some { 0 < blank.parts }
{
    let mut steps = Steps::<L>::new(blank);
    steps.tick();
    steps.tick();
    expect_two(&steps);
}

fn expect_two<L: Ledger>(_steps: &Steps<L>)
    requires { _steps.now ≡ 2 }
{}

#[test]
fn counted_steps(rt: HostRuntime) {
    two_steps::<Brand>(Blank::new(1));
    assert!(rt; size_of::<Steps<Brand>>() == 0);
}
