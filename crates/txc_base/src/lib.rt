//! The basic types of channels: items, operations, replies, acts and tags, and a table of the operations of each kind.
//! `specs/` defines what a channel is and does.
#![tactic(auto)]

mod act;
mod cause;
mod entry;
mod item;
mod kind;
mod limits;
mod list;
mod op;
mod origin;
mod reply;
mod source;
mod stop;
mod tag;

pub use act::Act;
pub use cause::Cause;
pub use entry::Entry;
pub use item::{Item, Items};
pub use kind::{Kind, UnknownKind, allowed, names_its_reader, supports};
pub use limits::{
    GREATEST_NUMBER, MAX_BOUND, MAX_CHANNELS, MAX_CHANNELS_OF_LARGE, MAX_READERS, MAX_SEATS,
    MAX_SEATS_OF_LARGE,
};
pub use list::List;
pub use op::Op;
pub use origin::Origin;
pub use reply::Reply;
pub use source::Source;
pub use stop::Stop;
pub use tag::Tag;
