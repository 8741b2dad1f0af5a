//! An office that threads share for a while, behind a lock.

ghost use Rattle.std.specs.Prelude.{◌≡◌, ◌^◌, IfErr, IfOk, length};
ghost use Rattle.commands.specs.Sharing.{IsSharedBy};
ghost use Rattle.office.specs.Counting.{HasCounted};
ghost use Rattle.shared_office.specs.Entries.{history_of};
ghost use Rattle.shared_office.specs.Passages.{Passes};
ghost use Rattle.shared_office.specs.Passing.{IsOf, begun_in, fixed_in, listed};
ghost use Rattle.turnstile.specs.Passes.{first_value, seen, share, tally};
ghost use Rattle.turnstile.specs.Places.{IsEachOnce};

use desk::stands_still;
use devices::Disk;
use office::Office;
use shared_office::Shared;
use std::alloc::Global;
use std::sync::Arc;
use turnstile::{Pass, Turnstile};

/// Puts an office behind a lock, with the pass to it. Where there is no memory for that, or its events could not be counted, the office comes
/// back.
pub(crate) fn share_office<D: Disk + Drop>(
    alloc: Global,
    office: Office<D>,
) -> Result<(Arc<Turnstile<Shared<D>>>, Pass<Shared<D>>), Office<D>>
    requires { HasCounted office.register.history (D.faults office.disk) }
    ensures shared { IfOk result (λ made. IsSharedBy office.register.history made.0.value made.1) }
    ensures begun { IfOk result (λ made. begun_in made.0.value ≡ office) }
    ensures back { IfErr result (λ o. o.register.history ≡ office.register.history) }
    ensures counted { IfErr result (λ o. HasCounted o.register.history (D.faults o.disk)) }
    ensures passed { IfErr result (λ o. ∥ Passes D.Disk office.register.history o.register.history office.disk o.disk ∥₁) }
{
    // this runs nothing: it tells the proof that nothing has passed in an office that comes back at once
    stands_still(&office);
    let shared = match Shared::new(office) {
        Ok(shared) => shared,
        Err(office) => return Err(office),
    };
    let (lock, pass) = match Turnstile::new(alloc, shared) {
        Ok(made) => made,
        Err((shared, _)) => return Err(shared.into_office()),
    };
    match Arc::new(alloc, lock) {
        Ok(lock) => Ok((lock, pass)),
        Err(refused) => Err(refused.value.close(pass).into_office()),
    }
}

/// Takes the office out of its lock again. Nobody else has a pass to it then.
pub(crate) fn take_back<D: Disk>(lock: &Turnstile<Shared<D>>, pass: Pass<Shared<D>>) -> Office<D>
    requires pass { IsOf lock.now pass }
    requires share { share pass ≡ 2 ^ 32 }
    ensures history { result.register.history ≡ history_of (fixed_in lock.now) (seen pass) }
    ensures once { IsEachOnce (length (listed (first_value lock.now))) (length (seen pass)) (tally pass) }
    ensures counted { HasCounted result.register.history (D.faults result.disk) }
    ensures passed { ∥ Passes D.Disk (begun_in lock.now).register.history result.register.history (begun_in lock.now).disk result.disk ∥₁ }
{
    lock.close(pass).into_office()
}
