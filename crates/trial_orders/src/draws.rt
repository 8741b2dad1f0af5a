//! The draws of a trial, one behind another.

ghost use Rattle.std.specs.Prelude.{◌≡◌, ◌+◌, ◌^◌, ◌<◌};
ghost use Rattle.trial_orders.specs.Draws as drawing;
ghost use Rattle.trial_orders.specs.Draws.{draw_at};

use std::marker::Model;

/// The draws that come from a number. Contracts see that number and how many were made.
#[derive(Drop)]
pub struct Draws {
    number: u32,
    made: u32,
    latest: u32,
}

impl Model for Draws {
    ghost use Rattle.std.specs.Prelude.{◌≡◌};
    ghost use Rattle.trial_orders.specs.Draws.{Drawn, draw_at};

    ghost Value = { Drawn };

    ghost view = { λ d. record { number = d.number; made = d.made } };

    ghost invariant = { λ d. d.latest ≡ draw_at d.number d.made };
}

impl Draws {
    /// Those of a number, of which none was made.
    pub fn new(number: u32) -> Draws
        ensures { result ≡ record { number = number; made = 0 } }
    {
        Draws {
            number,
            made: 0,
            latest: number,
        }
    }

    /// Draws that go on as these do, while these stay.
    pub(crate) fn duplicate(&self) -> Draws
        ensures { result ≡ self.now }
    {
        Draws {
            number: self.number,
            made: self.made,
            latest: self.latest,
        }
    }

    /// The next draw.
    pub fn next(&mut self) -> u32
        requires { self.old.made + 1 < 2 ^ 32 }
        ensures draw { result ≡ draw_at self.old.number (self.old.made + 1) }
        ensures made { self.new ≡ record { number = self.old.number; made = self.old.made + 1 } }
    {
        let drawn = draw_behind(self.latest);
        self.latest = drawn;
        self.made += 1;
        drawn
    }
}

/// The draw behind another one.
fn draw_behind(latest: u32) -> u32
    ensures { result ≡ drawing.draw_behind latest }
{
    ((u64::from(latest) * 1_103_515_245 + 12_345) % (1 << 31)) as u32
}
