//! The edit that adds the rating of a body in RDB.

ghost use Rattle.std.specs.Prelude.{◌≡◌, IfOk, IfErr, Ok};
ghost use Rattle.edits.specs.Lawful.{IsRatingNumber};
ghost use Rattle.http_api.specs.Asks.{asked_by, question, IsDenialBy, IsTextDenial};
ghost use Rattle.http_api.specs.declared.routes.Target.TheVariants as targets;
ghost use Rattle.rating_tables.specs.Rdb.{rdb_of};
ghost use Rattle.rating_tables.specs.Table.{IsRating};

use crate::asks::{Ask, Denied};
use edits::{By, Edit, Ref, What};
use fixed_units::{NoMemory, Site};
use ratings::{RdbFault, SharedTable, read_rdb};
use std::alloc::Global;

/// The edit that adds the rating of a body to a station under a number, with an empty comment.
pub(crate) fn rating_edit(
    alloc: Global,
    site: Site,
    rating: u32,
    by: By,
    reference: Ref,
    body: &[u8],
) -> Result<Ask, Denied>
    requires { IsRatingNumber rating }
    ensures ask { IfOk result (λ ask. asked_by (targets.Rating site rating by reference) body.now ≡ Ok (question ask)) }
    ensures denied { IfErr result (IsDenialBy (targets.Rating site rating by reference) body.now) }
{
    let table = table_in(alloc, body)?;
    let what = What::AddRating { rating, table };
    Ok(Ask::Edit(Edit::of(by, reference, site, what)))
}

/// The table that an RDB text states.
fn table_in(alloc: Global, text: &[u8]) -> Result<SharedTable, Denied>
    ensures table { IfOk result (λ table. rdb_of text.now ≡ Ok table) }
    ensures rating { IfOk result IsRating }
    ensures denied { IfErr result (IsTextDenial (rdb_of text.now)) }
{
    let table = match read_rdb(alloc, text) {
        Ok(table) => table,
        Err(RdbFault::NoMemory) => return Err(Denied::NoMemory),
        Err(fault) => return Err(Denied::Rdb(fault)),
    };
    match SharedTable::new(alloc, table) {
        Ok(shared) => Ok(shared),
        Err(NoMemory) => Err(Denied::NoMemory),
    }
}
