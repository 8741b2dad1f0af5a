//! Asks that are answered behind a lock: each reading and each edit in one holding; turns and settlements in two for each day, one in which
//! it is looked for and one in which it is published, while the office is free for others in between.

ghost use Rattle.std.specs.Prelude.{◌≡◌, ◌<◌, ◌≤◌, IfOk, OnErr, length};
ghost use Rattle.desk.specs.Answering.{IsMade, told_bytes};
ghost use Rattle.desk.specs.Asked.{IsReading};
ghost use Rattle.desk.specs.Replying.{memory_reply};
ghost use Rattle.desk.specs.Serving.{AnswersBehind, AreTurned, IsPublished, IsSettled};
ghost use Rattle.http_api.specs.declared.asks.Ask.TheVariants as asks;
ghost use Rattle.shared_office.specs.Passing.{IsOf, fixed_in};
ghost use Rattle.turnstile.specs.Passes.{seen};

use crate::answers::{Texts, Told, tell, tell_edit, told_by};
use devices::Disk;
use edits::Edit;
use fixed_units::NoMemory;
use http_api::{Ask, Reply};
use recompute::{Job, Publish};
use shared_office::holdings::{look, publish};
use shared_office::{Shared, compute};
use std::sync::Wait;
use turnstile::{Pass, Turnstile};

/// Answers an ask, in the holdings that it takes.
pub(crate) fn answer_behind<R: Wait, D: Disk>(
    rt: &R,
    lock: &Turnstile<Shared<D>>,
    pass: Pass<Shared<D>>,
    ask: Ask,
    texts: &mut Texts,
) -> (Pass<Shared<D>>, Told)
    requires { IsOf lock.now pass }
    ensures pass { IsOf lock.now result.0 }
    ensures answered { AnswersBehind (fixed_in lock.now) pass ask (told_bytes result.1 texts.new.reply) result.0 }
{
    match ask {
        Ask::Edit(edit) => take_edit(rt, lock, pass, edit, texts),
        Ask::Turns(count) if count > 0 => take_turns(rt, lock, pass, count, texts),
        Ask::Settle => settle(rt, lock, pass, texts),
        reading => read(rt, lock, pass, reading, texts),
    }
}

/// Tells what an ask that only reads asks for, in one holding.
fn read<R: Wait, D: Disk>(
    rt: &R,
    lock: &Turnstile<Shared<D>>,
    pass: Pass<Shared<D>>,
    ask: Ask,
    texts: &mut Texts,
) -> (Pass<Shared<D>>, Told)
    requires pass { IsOf lock.now pass }
    requires ask { IsReading ask }
    ensures pass { IsOf lock.now result.0 }
    ensures answered { AnswersBehind (fixed_in lock.now) pass ask (told_bytes result.1 texts.new.reply) result.0 }
{
    let held = lock.enter(rt, pass);
    let told = told_by(tell(&held.value().office, ask, texts));
    (lock.leave(held), told)
}

/// Takes an edit, in one holding. The reply to its acceptance is made in it before the office is asked, since only there its number is known;
/// want of memory for that leaves the office as it was.
fn take_edit<R: Wait, D: Disk>(
    rt: &R,
    lock: &Turnstile<Shared<D>>,
    pass: Pass<Shared<D>>,
    edit: Edit,
    texts: &mut Texts,
) -> (Pass<Shared<D>>, Told)
    requires { IsOf lock.now pass }
    ensures pass { IsOf lock.now result.0 }
    ensures answered { AnswersBehind (fixed_in lock.now) pass (asks.Edit edit) (told_bytes result.1 texts.new.reply) result.0 }
{
    let mut held = lock.enter(rt, pass);
    let number = held.value().office.edits().saturating_add(1);
    let Ok(()) = texts.prepare(number) else {
        return (lock.leave(held), Told::NoMemory);
    };
    let told = held.value_mut().take(edit);
    let back = lock.leave(held);
    (back, tell_edit(told, texts))
}

/// What came of turns or of a settlement.
#[derive(Clone, Copy)]
struct Turned {
    /// How many days are pending behind the last of their holdings.
    pending: u64,
    /// How many publications there were.
    published: u64,
}

/// Makes the reply of turns or of a settlement.
fn tell_turned(turned: Result<Turned, NoMemory>, texts: &mut Texts) -> Told
    ensures told { IfOk turned (λ turned. IsMade (Reply.Turned turned.pending turned.published) (told_bytes result texts.new.reply)) }
    ensures not { OnErr turned (told_bytes result texts.new.reply ≡ memory_reply) }
{
    match turned {
        Ok(turned) => texts.tell(&Reply::Turned {
            pending: turned.pending,
            published: turned.published,
        }),
        Err(_) => Told::NoMemory,
    }
}

/// Publishes so many days, as far as days are pending.
fn take_turns<R: Wait, D: Disk>(
    rt: &R,
    lock: &Turnstile<Shared<D>>,
    pass: Pass<Shared<D>>,
    count: u32,
    texts: &mut Texts,
) -> (Pass<Shared<D>>, Told)
    requires pass { IsOf lock.now pass }
    requires some { 0 < count }
    ensures pass { IsOf lock.now result.0 }
    ensures answered { AnswersBehind (fixed_in lock.now) pass (asks.Turns count) (told_bytes result.1 texts.new.reply) result.0 }
{
    let (back, turned) = turn_often(rt, lock, pass, count);
    (back, tell_turned(turned, texts))
}

/// Makes so many turns, which end where no day is pending.
fn turn_often<R: Wait, D: Disk>(
    rt: &R,
    lock: &Turnstile<Shared<D>>,
    given: Pass<Shared<D>>,
    count: u32,
) -> (Pass<Shared<D>>, Result<Turned, NoMemory>)
    requires pass { IsOf lock.now given }
    requires some { 0 < count }
    ensures pass { IsOf lock.now result.0 }
    ensures turned { AreTurned (fixed_in lock.now) count given result.0 result.1 }
{
    let mut pass = given;
    let mut turned = Turned {
        pending: 0,
        published: 0,
    };
    for _ in 0..count {
        let (next, looked) = look(rt, lock, pass, None);
        match looked {
            Ok(looked) => match looked.job {
                Some(job) => {
                    let (next, more) = publish_more(rt, lock, next, job, turned.published);
                    pass = next;
                    turned = more;
                }
                None => {
                    turned.pending = looked.pending;
                    return (next, Ok(turned));
                }
            },
            Err(NoMemory) => return (next, Err(NoMemory)),
        }
    }
    (pass, Ok(turned))
}

/// Computes a day while the office is free for others, and publishes it.
fn publish_more<R: Wait, D: Disk>(
    rt: &R,
    lock: &Turnstile<Shared<D>>,
    pass: Pass<Shared<D>>,
    job: Job,
    published: u64,
) -> (Pass<Shared<D>>, Turned)
    requires pass { IsOf lock.now pass }
    requires few { published ≤ length (seen pass) }
    ensures pass { IsOf lock.now result.0 }
    ensures held { IsPublished (fixed_in lock.now) pass job published result.0 result.1 }
    ensures few { result.1.published ≤ length (seen result.0) }
{
    let (back, told, pending) = publish(rt, lock, pass, compute(job));
    match told {
        Publish::Published => {
            let published = published + 1;
            (back, Turned { pending, published })
        }
        Publish::Settled | Publish::Superseded(_) | Publish::Foreign => {
            (back, Turned { pending, published })
        }
    }
}

/// Publishes every day that is pending, from one to the next.
fn settle<R: Wait, D: Disk>(
    rt: &R,
    lock: &Turnstile<Shared<D>>,
    pass: Pass<Shared<D>>,
    texts: &mut Texts,
) -> (Pass<Shared<D>>, Told)
    requires { IsOf lock.now pass }
    ensures pass { IsOf lock.now result.0 }
    ensures answered { AnswersBehind (fixed_in lock.now) pass asks.Settle (told_bytes result.1 texts.new.reply) result.0 }
{
    let (back, turned) = settle_days(rt, lock, pass);
    (back, tell_turned(turned, texts))
}

/// Publishes the pending days, from one to the next, until no day behind the last one is pending.
fn settle_days<R: Wait, D: Disk>(
    rt: &R,
    lock: &Turnstile<Shared<D>>,
    given: Pass<Shared<D>>,
) -> (Pass<Shared<D>>, Result<Turned, NoMemory>)
    requires { IsOf lock.now given }
    ensures pass { IsOf lock.now result.0 }
    ensures settled { IsSettled (fixed_in lock.now) given result.0 result.1 }
{
    let mut pass = given;
    let mut last = None;
    let mut published = 0;
    for _ in rt.forever() {
        let (next, looked) = look(rt, lock, pass, last);
        match looked {
            Ok(looked) => match looked.job {
                Some(job) => {
                    last = Some((job.site(), job.day()));
                    let (next, more) = publish_more(rt, lock, next, job, published);
                    pass = next;
                    published = more.published;
                }
                None => {
                    let pending = looked.pending;
                    return (next, Ok(Turned { pending, published }));
                }
            },
            Err(NoMemory) => return (next, Err(NoMemory)),
        }
    }
    unreachable!()
}
