//! A session over an office behind a lock.

ghost use Rattle.std.specs.Prelude.{◌≡◌, IfSome, IsSome, IsSomeAnd, Some};
ghost use Rattle.desk.specs.Serving.{AnswersBehind, IsSession};
ghost use Rattle.devices.specs.Doors.{ends_of};
ghost use Rattle.shared_office.specs.Passing.{IsOf, fixed_in};

use crate::answers::{Texts, Told};
use crate::asked::Asked;
use crate::behind::answer_behind;
use crate::sessions::{SessionEnd, serve};
use devices::{Disk, Sink, Source};
use http_api::Ask;
use shared_office::Shared;
use std::alloc::Global;
use std::sync::Wait;
use turnstile::{Pass, Turnstile};

/// An office behind a lock, with the pass to it.
#[derive(Drop)]
pub(crate) struct Behind<'a, R: Wait, D: Disk> {
    pub(crate) rt: &'a R,
    pub(crate) lock: &'a Turnstile<Shared<D>>,
    pub(crate) pass: Option<Pass<Shared<D>>>,
}

impl<R: Wait, D: Disk> Behind<'_, R, D> {
    /// The pass.
    pub(crate) fn into_pass(self) -> Pass<Shared<D>>
        requires { IsSome self.pass }
        ensures { self.entry.pass ≡ Some result }
    {
        let Behind { pass, .. } = self;
        let Some(pass) = pass else { unreachable!() };
        pass
    }
}

impl<R: Wait, D: Disk> Asked for Behind<'_, R, D> {
    ghost ready = { λ behind. IsSomeAnd behind.pass (IsOf behind.lock.now) };

    ghost answers = { λ old ask reply new. (new.lock ≡ old.lock) × IfSome old.pass (λ given. IsSomeAnd new.pass (AnswersBehind (fixed_in old.lock.now) given ask reply)) };

    fn answer(&mut self, ask: Ask, texts: &mut Texts) -> Told {
        let Some(pass) = self.pass.take() else {
            unreachable!()
        };
        let (pass, told) = answer_behind(self.rt, self.lock, pass, ask, texts);
        self.pass = Some(pass);
        told
    }
}

/// Serves the messages of a source over an office behind a lock, until it ends. Each reading and each edit is one holding of the lock; turns
/// and settlements compute while the office is free for others. The pass that comes back has the share of the given one, and its tally grew by
/// what the holdings added that the replies tell of, and by nothing else.
pub fn session<R: Wait, D: Disk, S: Source, K: Sink>(
    rt: &R,
    alloc: Global,
    lock: &Turnstile<Shared<D>>,
    pass: Pass<Shared<D>>,
    source: &mut S,
    sink: &mut K,
) -> (Pass<Shared<D>>, SessionEnd)
    requires { IsOf lock.now pass }
    ensures pass { IsOf lock.now result.0 }
    ensures served { IsSession (fixed_in lock.now) pass result.0 result.1 (ends_of S.Source K.Sink source.old sink.old) (ends_of S.Source K.Sink source.new sink.new) }
    ensures unserved { result.1 ≡ SessionEnd.NoMemory → (source.new ≡ source.old) × (sink.new ≡ sink.old) × (result.0 ≡ pass) }
{
    let mut behind = Behind {
        rt,
        lock,
        pass: Some(pass),
    };
    let end = serve(alloc, &mut behind, source, sink);
    (behind.into_pass(), end)
}
