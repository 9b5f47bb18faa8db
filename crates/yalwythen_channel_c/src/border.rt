// The calls that take a channel or a transaction by its address in the caller's memory. Each with `requires*` or
// `ensures*` has a proof by hand in `proofs/border/`, which follows the body call by call and changes with it.
ghost use Rattle.std.specs.Prelude.{◌≡◌, false, slice_get, true};
ghost use base.Fml.{fex, fsep};
ghost use types.Logic.{sem};
ghost use Rattle.std.specs.Borrow.{full_share};
ghost use Rattle.std.specs.Ptr.{lies_at, room_at};
ghost use Rattle.yalwythen_channel.specs.contracts.channel.Channel as channel_type;
ghost use Rattle.yalwythen_channel.specs.contracts.txn.Txn as txn_type;
ghost use Rattle.yalwythen_channel.specs.declared.channel.Channel.{Channel as Channels};
ghost use Rattle.yalwythen_channel.specs.declared.channel.Channel.TheVariants.{Absent};
ghost use Rattle.yalwythen_channel.specs.declared.txn.Txn.{Txn as Txns};
ghost use Rattle.yalwythen_channel.specs.OneOperation.{CommitsAs, CommitsHere, no_tag, operation_alone};
ghost use Rattle.yalwythen_channel.specs.Channel.{HasMade, TellsAccount, TellsChannel, recorded_in, view_in};
ghost use Rattle.yalwythen_channel.specs.OneList.{RunsList};
ghost use Rattle.yalwythen_channel.specs.OneMove.{MovesHere};
ghost use Rattle.yalwythen_channel.specs.RawSteps.{decls_with};
ghost use Rattle.yalwythen_channel.specs.Txn.{AnswersRequest, Enlists, IsNewTxn, Releases, TellsItems, Transacts};

use std::alloc::Global;
use std::mem;
use yalwythen_channel::{CallResult, Channel, RawStep, Record, Txn, drop_channel, drop_txn};

/// Returns the size of the place of a channel in bytes. Its address must be a multiple of 16. Does not allocate.
#[unsafe(no_mangle)]
pub extern "C" fn yalwythen_channel_bytes() -> u64 {
    mem::size_of::<Channel>() as u64
}

/// Makes a place without a channel in unused memory of the caller. Does not allocate.
#[unsafe(no_mangle)]
pub unsafe extern "C" fn yalwythen_channel_init(at: *mut u8)
    requires* { sem 𝓛 (room_at channel_type.the_row at) }
    ensures* { sem 𝓛 (fex Channels (λ channel. fex (channel ≡ Absent)
        (λ _. lies_at channel_type.the_row full_share at channel))) }
{
    let place = at as *mut Channel;
    place.write(Channel::absent());
}

/// Makes an open and empty channel in this place, like `Channel::make` of `yalwythen_channel`.
#[unsafe(no_mangle)]
pub unsafe extern "C" fn yalwythen_channel_make(
    at: *mut u8,
    alloc: Global,
    kind: u64,
    size: u64,
    records: u64,
) -> CallResult
    ghost before: { Channels }
    requires* { sem 𝓛 (lies_at channel_type.the_row full_share at before) }
    ensures* { sem 𝓛 (fex Channels (λ after. fex (HasMade (slice_get (decls_with size) kind) records before after result)
        (λ _. lies_at channel_type.the_row full_share at after))) }
{
    let channel = &mut *(at as *mut Channel);
    channel.make(alloc, kind, size, records)
}

/// Drops the channel in this place, if there is one, and frees what it allocated. Does not allocate.
#[unsafe(no_mangle)]
pub unsafe extern "C" fn yalwythen_channel_end(at: *mut u8)
    ghost before: { Channels }
    requires* { sem 𝓛 (lies_at channel_type.the_row full_share at before) }
    ensures* { sem 𝓛 (room_at channel_type.the_row at) }
{
    let place = at as *mut Channel;
    drop_channel(place.read());
}

/// Returns what is known of the channel in this place, like `Channel::tell` of `yalwythen_channel`.
#[unsafe(no_mangle)]
pub unsafe extern "C" fn yalwythen_channel_tell(at: *mut u8, number: u64, reader: u64) -> CallResult
    ghost before: { Channels }
    requires* { sem 𝓛 (lies_at channel_type.the_row full_share at before) }
    ensures* { sem 𝓛 (fex (TellsChannel number reader (view_in before) result)
        (λ _. lies_at channel_type.the_row full_share at before)) }
{
    let channel = &*(at as *mut Channel);
    channel.tell(number, reader)
}

/// Runs the operation with this number as one whole transaction on the channel in this place, like
/// `Channel::commit_one` of `yalwythen_channel`.
#[unsafe(no_mangle)]
pub unsafe extern "C" fn yalwythen_channel_commit_one(
    at: *mut u8,
    number: u32,
    reader: u16,
    body: u64,
) -> CallResult
    ghost before: { Channels }
    requires* { sem 𝓛 (lies_at channel_type.the_row full_share at before) }
    ensures* { sem 𝓛 (fex Channels (λ after. fex (CommitsHere (operation_alone number reader body) before after result)
        (λ _. lies_at channel_type.the_row full_share at after))) }
{
    let channel = &mut *(at as *mut Channel);
    channel.commit_one(number, reader, body)
}

/// Runs the operation with this number as one whole transaction of a seat on the channel in this place, like
/// `Channel::commit_as` of `yalwythen_channel`.
#[unsafe(no_mangle)]
pub unsafe extern "C" fn yalwythen_channel_commit_as(
    at: *mut u8,
    seat: u16,
    serial: u64,
    stamp: u64,
    number: u32,
    reader: u16,
    body: u64,
) -> CallResult
    ghost before: { Channels }
    requires* { sem 𝓛 (lies_at channel_type.the_row full_share at before) }
    ensures* { sem 𝓛 (fex Channels (λ after. fex
        (CommitsAs (record { seat = seat; serial = serial; stamp = stamp }) (operation_alone number reader body)
        before after result)
        (λ _. lies_at channel_type.the_row full_share at after))) }
{
    let channel = &mut *(at as *mut Channel);
    channel.commit_as(seat, serial, stamp, number, reader, body)
}

/// Moves an item from the channel at `from` to the channel at `to` as one whole transaction, like `Channel::move_to` of
/// `yalwythen_channel`.
#[unsafe(no_mangle)]
pub unsafe extern "C" fn yalwythen_channel_move(from: *mut u8, to: *mut u8) -> CallResult
    ghost before: { Channels × Channels }
    requires* { sem 𝓛 (fsep (lies_at channel_type.the_row full_share from before.0)
        (lies_at channel_type.the_row full_share to before.1)) }
    ensures* { sem 𝓛 (fex Channels (λ source. fex Channels (λ target.
        fex (MovesHere before.0 before.1 source target result)
        (λ _. fsep (lies_at channel_type.the_row full_share from source)
        (lies_at channel_type.the_row full_share to target))))) }
{
    let source = &mut *(from as *mut Channel);
    let target = &mut *(to as *mut Channel);
    source.move_to(target)
}

/// Writes the account of the channel in this place, like `Channel::read_account` of `yalwythen_channel`.
#[unsafe(no_mangle)]
pub unsafe extern "C" fn yalwythen_channel_account(
    at: *mut u8,
    from: u64,
    records: &mut [Record],
) -> CallResult
    ghost before: { Channels }
    requires* { sem 𝓛 (lies_at channel_type.the_row full_share at before) }
    ensures* { sem 𝓛 (fex (TellsAccount from (recorded_in before) records.old records.new result)
        (λ _. lies_at channel_type.the_row full_share at before)) }
{
    let channel = &*(at as *mut Channel);
    channel.read_account(from, records)
}

/// Returns the size of a transaction in bytes. Its address must be a multiple of 16. Does not allocate.
#[unsafe(no_mangle)]
pub extern "C" fn yalwythen_txn_bytes() -> u64 {
    mem::size_of::<Txn>() as u64
}

/// Creates a transaction without channels, for channels whose logs are not recorded, in unused memory of the caller.
/// Does not allocate.
#[unsafe(no_mangle)]
pub unsafe extern "C" fn yalwythen_txn_init(at: *mut u8, alloc: Global)
    requires* { sem 𝓛 (room_at txn_type.the_row at) }
    ensures* { sem 𝓛 (fex Txns (λ txn. fex (IsNewTxn false txn)
        (λ _. lies_at txn_type.the_row full_share at txn))) }
{
    let place = at as *mut Txn;
    place.write(Txn::unrecorded(alloc));
}

/// Creates a transaction without channels, for channels whose logs are recorded, in unused memory of the caller. Does
/// not allocate.
#[unsafe(no_mangle)]
pub unsafe extern "C" fn yalwythen_txn_init_recorded(at: *mut u8, alloc: Global)
    requires* { sem 𝓛 (room_at txn_type.the_row at) }
    ensures* { sem 𝓛 (fex Txns (λ txn. fex (IsNewTxn true txn)
        (λ _. lies_at txn_type.the_row full_share at txn))) }
{
    let place = at as *mut Txn;
    place.write(Txn::recorded(alloc));
}

/// Drops the transaction at this address with the channels that it has, and frees what they allocated. Does not
/// allocate.
#[unsafe(no_mangle)]
pub unsafe extern "C" fn yalwythen_txn_end(at: *mut u8)
    ghost before: { Txns }
    requires* { sem 𝓛 (lies_at txn_type.the_row full_share at before) }
    ensures* { sem 𝓛 (room_at txn_type.the_row at) }
{
    let place = at as *mut Txn;
    drop_txn(place.read());
}

/// Performs the request with the number `request`, like `Txn::ask` of `yalwythen_channel`.
#[unsafe(no_mangle)]
pub unsafe extern "C" fn yalwythen_txn_ask(at: *mut u8, request: u64, a: u64, b: u64) -> CallResult
    ghost before: { Txns }
    requires* { sem 𝓛 (lies_at txn_type.the_row full_share at before) }
    ensures* { sem 𝓛 (fex Txns (λ after. fex (AnswersRequest request a b before after result)
        (λ _. lies_at txn_type.the_row full_share at after))) }
{
    let txn = &mut *(at as *mut Txn);
    txn.ask(request, a, b)
}

/// Runs the steps in `raw_steps` as one transaction on the channels that the transaction at this address has, like
/// `Txn::transact` of `yalwythen_channel`.
#[unsafe(no_mangle)]
pub unsafe extern "C" fn yalwythen_txn_transact(
    at: *mut u8,
    raw_steps: &[RawStep],
    replies: &mut [CallResult],
) -> CallResult
    ghost before: { Txns }
    requires* { sem 𝓛 (lies_at txn_type.the_row full_share at before) }
    ensures* { sem 𝓛 (fex Txns (λ after. fex (Transacts raw_steps.now before after replies.old replies.new result)
        (λ _. lies_at txn_type.the_row full_share at after))) }
{
    let txn = &mut *(at as *mut Txn);
    txn.transact(raw_steps, replies)
}

/// Runs the steps in `raw_steps` as one transaction of no seat on all channels that the transaction at this address
/// has, like `Txn::list` of `yalwythen_channel`.
#[unsafe(no_mangle)]
pub unsafe extern "C" fn yalwythen_txn_list(
    at: *mut u8,
    raw_steps: &[RawStep],
    replies: &mut [CallResult],
) -> CallResult
    ghost before: { Txns }
    requires* { sem 𝓛 (lies_at txn_type.the_row full_share at before) }
    ensures* { sem 𝓛 (fex Txns (λ after. fex (RunsList raw_steps.now before after replies.new result)
        (λ _. lies_at txn_type.the_row full_share at after))) }
{
    let txn = &mut *(at as *mut Txn);
    txn.list(raw_steps, replies)
}

/// Writes the bodies of the items of a reply of the transaction at this address, like `Txn::read_items` of
/// `yalwythen_channel`. Does not allocate.
#[unsafe(no_mangle)]
pub unsafe extern "C" fn yalwythen_txn_items(
    at: *mut u8,
    reply: u64,
    from: u64,
    bodies: &mut [u64],
) -> CallResult
    ghost before: { Txns }
    requires* { sem 𝓛 (lies_at txn_type.the_row full_share at before) }
    ensures* { sem 𝓛 (fex (TellsItems reply from before bodies.old bodies.new result)
        (λ _. lies_at txn_type.the_row full_share at before)) }
{
    let txn = &*(at as *mut Txn);
    txn.read_items(reply, from, bodies)
}

/// Moves the channel from its place into the transaction at `txn`, like `Txn::enlist` of `yalwythen_channel`.
#[unsafe(no_mangle)]
pub unsafe extern "C" fn yalwythen_txn_enlist(txn: *mut u8, at: *mut u8) -> CallResult
    ghost before: { Txns × Channels }
    requires* { sem 𝓛 (fsep (lies_at txn_type.the_row full_share txn before.0)
        (lies_at channel_type.the_row full_share at before.1)) }
    ensures* { sem 𝓛 (fex Txns (λ after. fex Channels (λ left. fex (Enlists before.0 after before.1 left result)
        (λ _. fsep (lies_at txn_type.the_row full_share txn after)
        (lies_at channel_type.the_row full_share at left))))) }
{
    let txn = &mut *(txn as *mut Txn);
    let channel = &mut *(at as *mut Channel);
    txn.enlist(channel)
}

/// Moves the last channel of the transaction at `txn`, which must have this number, to a place without one, like
/// `Txn::release` of `yalwythen_channel`.
#[unsafe(no_mangle)]
pub unsafe extern "C" fn yalwythen_txn_release(txn: *mut u8, number: u64, at: *mut u8) -> CallResult
    ghost before: { Txns × Channels }
    requires* { sem 𝓛 (fsep (lies_at txn_type.the_row full_share txn before.0)
        (lies_at channel_type.the_row full_share at before.1)) }
    ensures* { sem 𝓛 (fex Txns (λ after. fex Channels (λ left.
        fex (Releases number before.0 after before.1 left result)
        (λ _. fsep (lies_at txn_type.the_row full_share txn after)
        (lies_at channel_type.the_row full_share at left))))) }
{
    let txn = &mut *(txn as *mut Txn);
    let channel = &mut *(at as *mut Channel);
    txn.release(number, channel)
}
