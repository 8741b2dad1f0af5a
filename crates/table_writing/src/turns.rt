//! Turns of an office.

ghost use Rattle.std.specs.Prelude.{◌≡◌, OnOk, OnErr};
ghost use Rattle.shared_office.specs.Passages.{Passes};
ghost use Rattle.history.specs.Accepted.{accepted};
ghost use Rattle.history.specs.After.{after_turns};
ghost use Rattle.register.specs.Registered.{NoneOut};
ghost use Rattle.table_writing.specs.Ends.{IsTurnedPartly};

use devices::Disk;
use fixed_units::NoMemory;
use office::Office;
use office::laws::an_office_stands_on_its_disk;

/// Makes so many turns, which end where no day is pending. After `NoMemory` some of them may have been made. No record is added, and the
/// disk is asked nothing.
pub(crate) fn make_turns<D: Disk>(office: &mut Office<D>, count: u32) -> Result<(), NoMemory>
    requires { NoneOut office.old.register }
    ensures turned { OnOk result (office.new.register.history ≡ after_turns count office.old.register.history) }
    ensures partly { OnErr result (IsTurnedPartly count office.old.register.history office.new.register.history) }
    ensures records { accepted office.new.register.history.events ≡ accepted office.old.register.history.events }
    ensures passed { Passes D.Disk office.old.register.history office.new.register.history office.old.disk office.new.disk }
    ensures claims { NoneOut office.new.register }
    ensures disk { office.new.disk ≡ office.old.disk }
{
    // this runs nothing: it tells the proof what a stop leaves of the disk that is asked nothing
    an_office_stands_on_its_disk(office);
    turn_often(office, count)
}

/// Makes the turns, one after another.
fn turn_often<D: Disk>(office: &mut Office<D>, count: u32) -> Result<(), NoMemory>
    requires { NoneOut office.old.register }
    ensures turned { OnOk result (office.new.register.history ≡ after_turns count office.old.register.history) }
    ensures partly { OnErr result (IsTurnedPartly count office.old.register.history office.new.register.history) }
    ensures claims { NoneOut office.new.register }
    ensures disk { office.new.disk ≡ office.old.disk }
{
    for made in 0..count {
        if office.turn()?.is_none() {
            return Ok(());
        }
    }
    Ok(())
}
