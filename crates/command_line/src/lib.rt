//! Reads the words that `blockd` is started with: three files and a flag.
//!
//! How words are read as options is the definition of `clap` (which words there are is this
//! project's own).
#![tactic(auto)]

ghost use Rattle.std.specs.Prelude.{◌≡◌, ◌≢◌, ◌↔◌, IsTrue, codes, [], List, false, map, string_bytes, IfOk, None};
ghost use Rattle.clap.specs.Words.{app_of, rule_of, fault_of, first_of, found_of, matches_of, rows_of};
ghost use Rattle.command_line.specs.{declared.ArgsFault.TheVariants.{NoMemory}, CommandLine.{blockd_app, file_option, AreArgsOf, MatchesHaveValues}};

use clap::error::ErrorKind;
use clap::{Arg, ArgAction, ArgMatches, Command};
use std::alloc::{AllocError, Global};
use thiserror::Error;

/// What the program is asked to run.
#[derive(Debug, Drop)]
pub struct Args {
    /// The file of the configuration (`--config`).
    pub config: String,
    /// The file that holds the disk's sectors (`--image`).
    pub image: String,
    /// The file of the script (`--script`).
    pub script: String,
    /// Whether the moves of the device are printed, too (`--trace`).
    pub trace: bool,
}

/// Why there is nothing to run.
#[derive(Clone, Copy, Debug, PartialEq, Eq, Error)]
pub enum ArgsFault {
    /// The words aren't a command line of the program, or ask for its help.
    #[error("bad command line")]
    Refused,
    /// Memory ran out.
    #[error("no memory")]
    NoMemory,
}

impl From<AllocError> for ArgsFault {
    ghost from_gives = { λ _ fault. fault ≡ NoMemory };

    fn from(_error: AllocError) -> ArgsFault {
        ArgsFault::NoMemory
    }
}

/// An option that is required and names a file.
fn file<'a>(alloc: Global, name: &'a str) -> Arg<'a>
    ensures rule { rule_of result ≡ file_option name.entry.now }
    ensures local { result.global ≡ false }
{
    Arg::new(alloc, name)
        .long(name)
        .required(true)
        .action(ArgAction::Set)
}

/// The command that the words are read by. The only error is want of memory.
fn command<'a>(alloc: Global) -> Result<Command<'a>, AllocError>
    ensures { IfOk result (λ command. app_of command ≡ blockd_app) }
{
    let trace = Arg::new(alloc, "trace")
        .long("trace")
        .action(ArgAction::SetTrue);
    Command::new(alloc, "blockd")
        .arg(file(alloc, "config"))?
        .arg(file(alloc, "image"))?
        .arg(file(alloc, "script"))?
        .arg(trace)
}

/// What the command finds in the words.
fn matches<'a>(alloc: Global, words: &'a [&'a str]) -> Result<ArgMatches<'a>, ArgsFault>
    ensures ok { let texts = map (λ word. word.now) words.entry.now in
        IfOk result (λ found. (rows_of (found_of found) ≡ matches_of blockd_app texts)
        × (fault_of blockd_app texts ≡ [])) }
    ensures refused { result ≡ Err ArgsFault.Refused → fault_of blockd_app (map (λ word. word.now) words.entry.now)
        ≢ [] }
{
    match command(alloc)?.try_get_matches_from(words) {
        Ok(matches) => Ok(matches),
        Err(error) if error.kind() == ErrorKind::OutOfMemory => Err(ArgsFault::NoMemory),
        Err(_) => Err(ArgsFault::Refused),
    }
}

/// The text of an option's value.
fn text(alloc: Global, matches: &ArgMatches<'_>, name: &str) -> Result<String, ArgsFault>
    ensures ok { IfOk result (λ text. first_of name.now (rows_of (found_of matches.now)) ≡ Some (string_bytes text)) }
    ensures refused { result ≡ Err ArgsFault.Refused → first_of name.now (rows_of (found_of matches.now)) ≡ None }
{
    match matches.get_str(name) {
        Some(value) => Ok(String::from_str(alloc, value)?),
        None => Err(ArgsFault::Refused),
    }
}

/// Whether the flag `--trace` is given.
fn is_traced(matches: &ArgMatches<'_>) -> bool
    ensures { IsTrue result ↔ (first_of (codes "trace") (rows_of (found_of matches.now)) ≡ Some (codes "true")) }
{
    match matches.get_str("trace") {
        Some(value) => value == "true",
        None => false,
    }
}

impl Args {
    fn from_matches(alloc: Global, matches: &ArgMatches<'_>) -> Result<Args, ArgsFault>
        ensures ok { IfOk result (MatchesHaveValues (rows_of (found_of matches.now))) }
        ensures refused { result ≡ Err ArgsFault.Refused
            → (args : Args) → MatchesHaveValues (rows_of (found_of matches.now)) args → ⊥ }
    {
        Ok(Args {
            config: text(alloc, matches, "config")?,
            image: text(alloc, matches, "image")?,
            script: text(alloc, matches, "script")?,
            trace: is_traced(matches),
        })
    }

    /// Reads the words of `blockd --config FILE --image FILE --script FILE [--trace]`, the program's name first.
    ///
    /// # Errors
    ///
    /// Words are refused exactly if `clap` finds a fault in them under this command: a file is missing, a file or the
    /// flag is given twice, the flag has a value, a word is unknown or one too many, or help is asked for.
    pub fn read(alloc: Global, words: &[&str]) -> Result<Args, ArgsFault>
        ensures ok { IfOk result (AreArgsOf (map (λ word. word.now) words.now)) }
        ensures refused { result ≡ Err ArgsFault.Refused
            → (args : Args) → AreArgsOf (map (λ word. word.now) words.now) args → ⊥ }
    {
        Args::from_matches(alloc, &matches(alloc, words)?)
    }
}
