// The words of the command line.
ghost use Rattle.std.specs.Prelude.{◌≡◌, [], map, string_bytes, IfOk, IfErr, Some, None};
ghost use Rattle.clap.specs.Words.{app_of, fault_of, kind_of, subcommand_of, subcommand_rows_of, HasKind};
ghost use Rattle.txc_cmd_io.specs.Words.{chanrun, fault_by, no_subcommands, request_in, IsLeaf, action_named, action_in};

use clap::error::ErrorKind;
use clap::{ArgMatches, Command, Error};
use std::alloc::{AllocError, Global};
use std::rt::Env;
use std::{env, io};

/// What the words of a command line request.
#[derive(Debug, Clone, Copy, PartialEq, Eq)]
pub enum Action {
    /// Checks whether a script is valid.
    Check,
    /// Runs a script in one thread.
    Replay,
    /// Explores every order of a script.
    Explore,
    /// Runs a script with one thread per seat.
    Run,
}

/// Why words request nothing.
#[derive(Debug, Clone, Copy, PartialEq, Eq)]
pub enum ArgsFault {
    /// The words are not a command of the program.
    Usage,
    /// Allocation failed.
    NoMemory,
}

/// Makes a subcommand that takes no words.
fn leaf_command<'a>(alloc: Global, name: &'a str) -> Command<'a>
    ensures { IsLeaf result name.entry.now }
{
    Command::new(alloc, name).disable_help_flag(true)
}

/// Makes the command line before its subcommands are added.
fn bare_command<'a>(alloc: Global) -> Command<'a>
    ensures { app_of result ≡ no_subcommands }
{
    Command::new(alloc, "chanrun")
        .disable_help_flag(true)
        .disable_version_flag(true)
        .disable_help_subcommand(true)
        .subcommand_required(true)
}

/// Makes the program's command line. Fails if allocation fails.
fn command_line<'a>(alloc: Global) -> Result<Command<'a>, AllocError>
    ensures { IfOk result (λ command. app_of command ≡ chanrun) }
{
    bare_command(alloc)
        .subcommand(leaf_command(alloc, "check"))?
        .subcommand(leaf_command(alloc, "replay"))?
        .subcommand(leaf_command(alloc, "explore"))?
        .subcommand(leaf_command(alloc, "run"))
}

/// Matches the words with clap. Fails if clap rejects the words or allocation fails.
fn find_matches<'a>(alloc: Global, words: &'a [String]) -> Result<ArgMatches<'a>, Error>
    ensures ok { IfOk result (λ m. (fault_of chanrun (map string_bytes words.entry.now) ≡ [])
        × (subcommand_rows_of m ≡ subcommand_of chanrun (map string_bytes words.entry.now))) }
    ensures err { IfErr result (HasKind (fault_of chanrun (map string_bytes words.entry.now))) }
{
    command_line(alloc)?.try_get_matches_from(words)
}

/// Returns the action of the subcommand with this name, if there is one.
fn read_action(name: &str) -> Option<Action>
    ensures { result ≡ action_named name.now }
{
    match name {
        "check" => Some(Action::Check),
        "replay" => Some(Action::Replay),
        "explore" => Some(Action::Explore),
        "run" => Some(Action::Run),
        _ => None,
    }
}

/// Returns the fault for an error of clap: `NoMemory` if its kind is that of a failed allocation, otherwise `Usage`.
fn fault_for(error: &Error) -> ArgsFault
    ensures { result ≡ fault_by (kind_of error.now) }
{
    match error.kind() {
        ErrorKind::OutOfMemory => ArgsFault::NoMemory,
        _ => ArgsFault::Usage,
    }
}

/// Returns what the words request, by what clap found in them.
fn read_request(found: Result<ArgMatches<'_>, Error>) -> Result<Action, ArgsFault>
    ensures { result ≡ request_in found.entry }
{
    match found {
        Ok(matches) => match matches.subcommand_name() {
            Some(name) => read_action(name).ok_or(ArgsFault::Usage),
            None => Err(ArgsFault::Usage),
        },
        Err(error) => Err(fault_for(&error)),
    }
}

/// Reads the words of a command line. The first word is the program's name. Returns the action that they request. Fails
/// with `Usage` if they are not a command, and with `NoMemory` if allocation fails.
pub fn parse_args(alloc: Global, words: &[String]) -> Result<Action, ArgsFault>
    ensures ok { IfOk result (λ a. action_in (map string_bytes words.now) ≡ Some a) }
    ensures usage { IfErr result (λ e. e ≡ ArgsFault.Usage → action_in (map string_bytes words.now) ≡ None) }
{
    read_request(find_matches(alloc, words))
}

/// Returns the words of the command line of this process. Returns no words, which are not a command either, if the
/// words are not available as text. Fails if allocation fails.
pub fn read_args<R: Env + AllocGlobal>(rt: &R) -> Result<Vec<String>, AllocError> {
    let mut words = Vec::new(rt.alloc());
    match env::args(rt) {
        Ok(args) => {
            for word in args {
                // This does not use `collect`, which would drop words instead of failing if allocation fails.
                words.push(word)?;
            }
        }
        Err(error) if error.kind() == io::ErrorKind::OutOfMemory => return Err(AllocError),
        Err(_) => {}
    }
    Ok(words)
}
