// The calls that take a domain by its address in the caller's memory. Each with `requires*` or `ensures*` has a proof
// by
// hand in `proofs/border/`, which follows the body call by call and changes with it.
ghost use Rattle.std.specs.Prelude.{false, true};
ghost use base.Fml.{fex};
ghost use types.Logic.{sem};
ghost use Rattle.std.specs.Borrow.{full_share};
ghost use Rattle.std.specs.Ptr.{lies_at, room_at};
ghost use Rattle.yalwythen_domain.specs.contracts.any.Domain as domain_type;
ghost use Rattle.yalwythen_domain.specs.declared.any.Domain.{Domain as Domains};
ghost use Rattle.yalwythen_domain.specs.Any.{AnswersRequest, IsNewDomain, TellsItems, TellsRecords, Transacts};

use std::alloc::Global;
use std::mem;
use yalwythen_domain::{CallResult, Domain, RawStep, Record, drop_domain};

/// Returns the size of a domain in bytes. A domain's address must be a multiple of 16. Does not allocate.
#[unsafe(no_mangle)]
pub extern "C" fn yalwythen_core_bytes() -> u64 {
    mem::size_of::<Domain>() as u64
}

/// Creates a domain without channels or seats in unused memory of the caller. Its logs are not recorded. Does not
/// allocate.
#[unsafe(no_mangle)]
pub unsafe extern "C" fn yalwythen_core_init(at: *mut u8, alloc: Global)
    requires* { sem 𝓛 (room_at domain_type.the_row at) }
    ensures* { sem 𝓛 (fex Domains (λ domain. fex (IsNewDomain false domain)
        (λ _. lies_at domain_type.the_row full_share at domain))) }
{
    let place = at as *mut Domain;
    place.write(Domain::unrecorded(alloc));
}

/// Creates a domain without channels or seats in unused memory of the caller. Its logs are recorded. Does not allocate.
#[unsafe(no_mangle)]
pub unsafe extern "C" fn yalwythen_core_init_recorded(at: *mut u8, alloc: Global)
    requires* { sem 𝓛 (room_at domain_type.the_row at) }
    ensures* { sem 𝓛 (fex Domains (λ domain. fex (IsNewDomain true domain)
        (λ _. lies_at domain_type.the_row full_share at domain))) }
{
    let place = at as *mut Domain;
    place.write(Domain::recorded(alloc));
}

/// Performs the request with the number `request` on the domain at this address, like `Domain::ask` of
/// `yalwythen_domain`, and returns its result. The result's code is 4 if the request is rejected, and 5 if an
/// allocation fails.
#[unsafe(no_mangle)]
pub unsafe extern "C" fn yalwythen_core_ask(at: *mut u8, request: u64, a: u64, b: u64) -> CallResult
    ghost before: { Domains }
    requires* { sem 𝓛 (lies_at domain_type.the_row full_share at before) }
    ensures* { sem 𝓛 (fex Domains (λ after. fex (AnswersRequest request a b before after result)
        (λ _. lies_at domain_type.the_row full_share at after))) }
{
    let domain = &mut *(at as *mut Domain);
    domain.ask(request, a, b)
}

/// Runs the steps in `raw_steps` as one transaction of a seat of the domain at this address. If it commits, returns
/// code 0 with the number of replies, and writes as many of them as fit to the front of `replies`. Otherwise the code
/// is 1 if the transaction must be retried, 2 if it aborts, 3 if the steps are invalid, 4 if the request is rejected,
/// and 5 if an allocation fails. Allocates.
#[unsafe(no_mangle)]
pub unsafe extern "C" fn yalwythen_core_transact(
    at: *mut u8,
    seat: u64,
    raw_steps: &[RawStep],
    replies: &mut [CallResult],
) -> CallResult
    ghost before: { Domains }
    requires* { sem 𝓛 (lies_at domain_type.the_row full_share at before) }
    ensures* { sem 𝓛 (fex Domains (λ after. fex (Transacts seat raw_steps.now before after replies.old replies.new
        result) (λ _. lies_at domain_type.the_row full_share at after))) }
{
    let domain = &mut *(at as *mut Domain);
    domain.transact(seat, raw_steps, replies)
}

/// Writes the bodies of the items of a reply of the domain at this address, from item `from` on, to the front of
/// `bodies`, as many as fit. The reply is one of the last committed transaction, or the last one of the open
/// transaction if `reply` is `u64::MAX`. Returns code 0 and the number of items, or code 64 if there is no such reply.
/// Does not allocate.
#[unsafe(no_mangle)]
pub unsafe extern "C" fn yalwythen_core_items(
    at: *mut u8,
    reply: u64,
    from: u64,
    bodies: &mut [u64],
) -> CallResult
    ghost before: { Domains }
    requires* { sem 𝓛 (lies_at domain_type.the_row full_share at before) }
    ensures* { sem 𝓛 (fex (TellsItems reply from before bodies.old bodies.new result)
        (λ _. lies_at domain_type.the_row full_share at before)) }
{
    let domain = &*(at as *mut Domain);
    domain.read_items(reply, from, bodies)
}

/// Writes the account of a channel of the domain at this address, from record `from` on, to the front of `records`, as
/// many as fit. Returns code 0 with the number of all records. The code is 4 if logs are not recorded, if a transaction
/// is open or if there is no such channel, and 5 if an allocation fails. Allocates and frees.
#[unsafe(no_mangle)]
pub unsafe extern "C" fn yalwythen_core_account(
    at: *mut u8,
    chan: u64,
    from: u64,
    records: &mut [Record],
) -> CallResult
    ghost before: { Domains }
    requires* { sem 𝓛 (lies_at domain_type.the_row full_share at before) }
    ensures* { sem 𝓛 (fex (TellsRecords chan from before records.old records.new result)
        (λ _. lies_at domain_type.the_row full_share at before)) }
{
    let domain = &*(at as *mut Domain);
    domain.read_account(chan, from, records)
}

/// Drops the domain at this address and frees what it allocated. Does not allocate.
#[unsafe(no_mangle)]
pub unsafe extern "C" fn yalwythen_core_end(at: *mut u8)
    ghost domain: { Domains }
    requires* { sem 𝓛 (lies_at domain_type.the_row full_share at domain) }
    ensures* { sem 𝓛 (room_at domain_type.the_row at) }
{
    let place = at as *mut Domain;
    drop_domain(place.read());
}
