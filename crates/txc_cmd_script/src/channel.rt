// Reads the channels of a script from their JSON trees.
ghost use Rattle.std.specs.Prelude.{◌≡◌, ◌≢◌, length, None, Ok, Err, IfOk, IfErr, map};
ghost use Rattle.serde_json.specs.View.{view};
ghost use Rattle.txc_chan.specs.Limits.{first_fault};
ghost use Rattle.txc_base.specs.Kinds.{kind_named};
ghost use Rattle.txc_cmd_script.specs.Reading.{plain_decl, bounded_decl, broadcast_decl, declared_in, decl_in};
ghost use Rattle.txc_cmd_script.specs.Reading.{decls_in};

use crate::fault::ScriptFault;
use crate::tree::{count_keys, number_at, text_at};
use serde_json::Value;
use std::alloc::Global;
use std::str::FromStr;
use txc_base::Kind;
use txc_chan::{ChanFault, Decl};

/// Returns the kind with this name, if there is one.
fn read_kind(name: &str) -> Option<Kind>
    ensures { result ≡ kind_named name.now }
{
    Kind::from_str(name).ok()
}

/// Reads a channel that has only the key `kind`.
fn read_plain(kind: Kind, tree: &Value) -> Option<Decl>
    ensures { result ≡ plain_decl kind (view tree.now) }
{
    if count_keys(tree) != 1 {
        return None;
    }
    Some(Decl {
        kind,
        bound: 0,
        readers: 1,
    })
}

/// Reads a channel that has two keys, one of them `bound`.
fn read_bounded(kind: Kind, tree: &Value) -> Option<Decl>
    ensures { result ≡ bounded_decl kind (view tree.now) }
{
    if count_keys(tree) != 2 {
        return None;
    }
    let bound = number_at(tree, "bound")?;
    Some(Decl {
        kind,
        bound,
        readers: 1,
    })
}

/// Reads a channel that has at most two keys, the second being `readers`. The number of readers is 1 if it is left out.
fn read_broadcast(kind: Kind, tree: &Value) -> Option<Decl>
    ensures { result ≡ broadcast_decl kind (view tree.now) }
{
    if count_keys(tree) != 2 {
        return read_plain(kind, tree);
    }
    let readers = number_at(tree, "readers")?;
    Some(Decl {
        kind,
        bound: 0,
        readers,
    })
}

/// Reads a channel without checking its limits.
fn read_declared(tree: &Value) -> Option<Decl>
    ensures { result ≡ declared_in (view tree.now) }
{
    match read_kind(text_at(tree, "kind")?)? {
        Kind::Queue => read_plain(Kind::Queue, tree),
        Kind::MQueue => read_plain(Kind::MQueue, tree),
        Kind::Bounded => read_bounded(Kind::Bounded, tree),
        Kind::BMQueue => read_bounded(Kind::BMQueue, tree),
        Kind::Cast => read_broadcast(Kind::Cast, tree),
        Kind::MCast => read_broadcast(Kind::MCast, tree),
    }
}

/// Reads the channel with this number. Fails with `Shape` first, then with the fault of its limits.
fn read_decl(chan: usize, tree: &Value) -> Result<Decl, ScriptFault>
    ensures { result ≡ decl_in chan (view tree.now) }
{
    let Some(decl) = read_declared(tree) else {
        return Err(ScriptFault::Shape);
    };
    match decl.fault() {
        None => Ok(decl),
        Some(ChanFault::BoundTooLarge) => Err(ScriptFault::BoundTooLarge { chan }),
        Some(ChanFault::TooManyReaders) => Err(ScriptFault::TooManyReaders { chan }),
        Some(ChanFault::NoMemory) => Err(ScriptFault::NoMemory),
    }
}

/// Reads the channels. Fails with the first fault of a channel, or with `NoMemory` if allocation fails.
pub(crate) fn read_decls(alloc: Global, trees: &[Value]) -> Result<Vec<Decl>, ScriptFault>
    ensures ok { IfOk result (λ decls. decls_in 0 (map view trees.now) ≡ Ok decls.items) }
    ensures all { IfOk result (λ decls. length decls.items ≡ length trees.now) }
    ensures made { IfOk result (λ decls. first_fault decls.items ≡ None) }
    ensures err { IfErr result (λ e. e ≢ ScriptFault.NoMemory → decls_in 0 (map view trees.now) ≡ Err e) }
{
    let mut decls = Vec::new(alloc);
    for (chan, tree) in trees.iter().enumerate() {
        let decl = read_decl(chan, tree)?;
        decls.push(decl)?;
    }
    Ok(decls)
}
