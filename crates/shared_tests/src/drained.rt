//! A worker alone behind a lock whose office has pending days, and whose end was told.

use crate::offices::pending_office;
use devices::OpenGate;
use shared_office::holdings::{end, look};
use std::test::Fail;
use turnstile::Turnstile;
use workers::{WorkerEnd, worker};

#[test]
fn drained(rt: HostRuntime) -> Result<(), Fail> {
    let Some(shared) = pending_office(rt.alloc()) else {
        return Err("there is an office of four edits".into());
    };
    let Ok((lock, pass)) = Turnstile::new(rt.alloc(), shared) else {
        return Err("there is memory for a lock".into());
    };
    let pass = end(&rt, &lock, pass);
    let (pass, ended) = worker(&rt, &lock, pass, &OpenGate);
    let (_pass, looked) = look(&rt, &lock, pass, None);
    let Ok(looked) = looked else {
        return Err("there is memory for a look".into());
    };
    assert!(rt; ended == WorkerEnd::Drained(2) && looked.job.is_none() && looked.pending == 0);
    Ok(())
}
