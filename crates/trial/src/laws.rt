//! What holds of every trial.

ghost use Rattle.std.specs.Prelude.{◌≡◌, ℕ, ◌+◌, List, length};
ghost use Rattle.history.specs.Accepted.{accepted};
ghost use Rattle.trial.specs.Figures.{IsTrialText, publications};
ghost use Rattle.trial.specs.Trials.{Trial, FollowsAll, beginning};
ghost use Rattle.trial_orders.specs.Orders.{orders};

/// The trial of a number comes to one text.
pub fn a_trial_has_one_text()
    ensures { (number : ℕ) (a b : List ℕ) → IsTrialText number a → IsTrialText number b → a ≡ b }
{}

/// All that happens in a trial is that edits are accepted and values published.
pub fn events_are_edits_and_publications()
    ensures { (number : ℕ) (after : Trial) → FollowsAll beginning (orders number) after
        → length after.history.events ≡ length (accepted after.history.events) + publications after.history.events }
{}
