//! What feeders are to offer.

ghost use Rattle.std.specs.Prelude.{◌≡◌, ◌<◌, ◌≤◌, ◌^◌, IfOk, map, vec_len};
ghost use Rattle.std.specs.List.{range_with_len};
ghost use Rattle.tr_load.specs.Works.{item_of, work_of};
ghost use Rattle.tr_terms.specs.declared.limits.TheConstants.{MOST_RECORDS};

use std::alloc::{AllocError, Global};
use tr_pool::Item;
use tr_stream::Payload;
use tr_terms::Moment;
use tr_terms::limits::MOST_RECORDS;

/// The item of number `k` of the feeder of number `t`: at moment `k`, with id `k`, and both numbers as its payload.
fn load_item(alloc: Global, t: u32, k: u32) -> Result<Item, AllocError>
    ensures { IfOk result (λ item. item ≡ item_of t k) }
{
    let mut payload = Vec::with_capacity(alloc, 8)?;
    payload.extend_from_slice(&t.to_le_bytes())?;
    payload.extend_from_slice(&k.to_le_bytes())?;
    Ok(Item {
        moment: Moment::within_limit(u64::from(k)),
        id: k,
        payload: Payload::new(payload),
    })
}

/// The work of the feeder of number `t`: `records` items, each with 8 bytes of payload.
///
/// # Errors
///
/// Out of memory.
pub fn load_work(alloc: Global, t: u32, records: u64) -> Result<Vec<Item>, AllocError>
    requires { records ≤ MOST_RECORDS }
    ensures { IfOk result (λ items. items.items ≡ work_of records t) }
{
    let mut items = Vec::with_capacity(alloc, records as usize)?;
    'records: for k in 0..records as u32 {
        items.push_reserved(load_item(alloc, t, k)?);
    }
    Ok(items)
}

/// The work of each feeder, in order of number: `records` items each.
pub(crate) fn load_works(
    alloc: Global,
    threads: usize,
    records: u64,
) -> Result<Vec<Vec<Item>>, AllocError>
    requires threads { threads < 2 ^ 32 }
    requires records { records ≤ MOST_RECORDS }
    ensures len { IfOk result (λ works. vec_len works ≡ threads) }
    ensures works { IfOk result
        (λ works. map (λ w. w.items) works.items ≡ map (work_of records) (range_with_len 0 threads)) }
{
    let mut works = Vec::with_capacity(alloc, threads)?;
    'threads: for t in 0..threads {
        works.push_reserved(load_work(alloc, t as u32, records)?);
    }
    Ok(works)
}
