//! What may go to another thread.

ghost use Rattle.register.specs.contracts.registers.Register.{the_row};
ghost use denote.Param.Send.{IsSend};

use register::Register;

/// What is `Send` may go to another thread: a law, which does nothing.
fn may_be_sent<T: Send>()
    ensures { IsSend T.row }
{}

/// What an office keeps in memory may go to another thread: a law, which does nothing. It is said once, since the proof of it is long.
pub(crate) fn a_register_may_be_sent()
    ensures { IsSend the_row }
{
    may_be_sent::<Register>()
}
