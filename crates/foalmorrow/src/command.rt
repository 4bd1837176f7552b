//! The words of the command-line tool `foalmorrow`, and what they ask for.

ghost use Rattle.std.specs.Prelude.{◌≡◌, ◌≢◌, ◌⊎◌};
ghost use Rattle.clap.specs.Words.{kind_of};

use clap::error::ErrorKind;
use clap::{Arg, ArgAction, ArgMatches, Command, Error};
use std::alloc::Global;

const VERSION: &str = "0.3.0";

const ABOUT: &str =
    "Prunes columnar data by its statistics, with every function proved to meet its contract";

const ABOUT_SCAN: &str =
    "Answers texts of columns, parts and a predicate: the skipped parts and the selected rows";

const ABOUT_PRUNE: &str =
    "Tells which row groups of Parquet files a condition in SQL leaves to read, by their footers";

const ABOUT_SHOW: &str = "Shows the row groups of Parquet files and their statistics";

const STATUSES: &str = "Exit status, the greatest of several files:
  0   there is an answer
  1   there is none, and standard error says why
  2   a line is bad, a file is no Parquet file or a text is no condition over its columns
  64  a word of the command line isn't known
  66  a file can't be opened or read";

const FORMATS: [&str; 2] = ["text", "json"];

/// Texts of the program's language that are to be answered.
#[derive(Debug, Drop)]
pub struct Scan<'a> {
    pub is_explained: bool,
    /// The files that hold them; standard input where there is none.
    pub files: Vec<&'a str>,
}

/// The form in which an answer is written.
#[derive(Debug, Clone, Copy, PartialEq, Eq)]
pub enum Format {
    Text,
    Json,
}

/// Parquet files whose row groups are to be pruned.
#[derive(Debug, Drop)]
pub struct Prune<'a> {
    pub format: Format,
    pub is_explained: bool,
    pub files: Vec<&'a str>,
    /// The condition in SQL.
    pub condition: &'a str,
}

/// Parquet files whose row groups are to be shown.
#[derive(Debug, Drop)]
pub struct Show<'a> {
    pub files: Vec<&'a str>,
}

/// A subcommand with its words.
#[derive(Debug, Drop)]
pub enum Request<'a> {
    Scan(Scan<'a>),
    Prune(Prune<'a>),
    Show(Show<'a>),
}

// The words behind `scan` that are known.
fn scan_command<'a>(alloc: Global) -> Result<Command<'a>, Error> {
    let explain = Arg::new(alloc, "explain")
        .short('e')
        .long("explain")
        .action(ArgAction::SetTrue)
        .help("Says on standard error what becomes of each part, and why");
    let files = Arg::new(alloc, "file")
        .value_name("FILE")
        .num_args(1..)
        .help("Files to answer; standard input where there is none");
    Ok(
        Command::new(alloc, "scan")
            .about(ABOUT_SCAN)
            .arg(explain)?
            .arg(files)?,
    )
}

// The words behind `prune` that are known.
fn prune_command<'a>(alloc: Global) -> Result<Command<'a>, Error> {
    let format = Arg::new(alloc, "format")
        .long("format")
        .value_name("FORMAT")
        .value_parser(FORMATS.as_slice())
        .default_value("text")
        .help("The form of the answer");
    let explain = Arg::new(alloc, "explain")
        .short('e')
        .long("explain")
        .action(ArgAction::SetTrue)
        .help("Says on standard error what is known of each row group, and what isn't read");
    let files = Arg::new(alloc, "file")
        .value_name("FILE")
        .num_args(1..)
        .required(true)
        .help("Parquet files");
    let condition = Arg::new(alloc, "condition")
        .value_name("CONDITION")
        .required(true)
        .help("The condition, as it stands behind WHERE");
    Ok(
        Command::new(alloc, "prune")
            .about(ABOUT_PRUNE)
            .arg(format)?
            .arg(explain)?
            .arg(files)?
            .arg(condition)?,
    )
}

// The words behind `show` that are known.
fn show_command<'a>(alloc: Global) -> Result<Command<'a>, Error> {
    let files = Arg::new(alloc, "file")
        .value_name("FILE")
        .num_args(1..)
        .required(true)
        .help("Parquet files");
    Ok(Command::new(alloc, "show").about(ABOUT_SHOW).arg(files)?)
}

// The words that are known.
fn command<'a>(alloc: Global) -> Result<Command<'a>, Error> {
    let prune = prune_command(alloc)?;
    let scan = scan_command(alloc)?;
    let show = show_command(alloc)?;
    Ok(
        Command::new(alloc, "foalmorrow")
            .version(VERSION)
            .about(ABOUT)
            .after_help(STATUSES)
            .subcommand_required(true)
            .subcommand(prune)?
            .subcommand(scan)?
            .subcommand(show)?,
    )
}

// The files that are named.
fn files_of<'a>(alloc: Global, matches: &ArgMatches<'a>) -> Result<Vec<&'a str>, Error> {
    let mut files = Vec::new(alloc);
    if let Some(names) = matches.get_strs("file") {
        files.extend_from_slice(names)?;
    }
    Ok(files)
}

// Reads the words behind `prune`.
fn prune_requested<'a>(alloc: Global, matches: &ArgMatches<'a>) -> Result<Prune<'a>, Error> {
    let format = match matches.get_str("format") {
        Some("json") => Format::Json,
        _ => Format::Text,
    };
    Ok(Prune {
        format,
        is_explained: matches.get_flag("explain"),
        files: files_of(alloc, matches)?,
        condition: matches.get_str("condition").unwrap_or(""),
    })
}

// Reads the words behind a command.
fn request_of<'a>(
    alloc: Global,
    name: &str,
    matches: &ArgMatches<'a>,
) -> Result<Option<Request<'a>>, Error> {
    Ok(match name {
        "prune" => Some(Request::Prune(prune_requested(alloc, matches)?)),
        "scan" => Some(Request::Scan(Scan {
            is_explained: matches.get_flag("explain"),
            files: files_of(alloc, matches)?,
        })),
        "show" => Some(Request::Show(Show {
            files: files_of(alloc, matches)?,
        })),
        _ => None,
    })
}

/// Returns what the words of a command line ask for, the first of which is the program's name. The
/// error is also what `--help` and `--version` print.
pub fn requested<'a>(alloc: Global, words: &'a [String]) -> Result<Request<'a>, Error> {
    let mut command = command(alloc)?;
    let matches = command.try_get_matches_from_mut(words)?;
    let request = match matches.subcommand() {
        Some((name, matches)) => request_of(alloc, name, matches)?,
        None => None,
    };
    match request {
        Some(request) => Ok(request),
        None => Err(command.error(ErrorKind::MissingSubcommand, "a command is missing")?),
    }
}

/// Returns the status of a command line that asks for nothing that is done: 0 where help or the
/// version was asked for, 1 where memory was refused, and else 64.
pub fn status_of(error: &Error) -> u8
    ensures shown { (kind_of error.now ≡ ErrorKind.DisplayHelp)
        ⊎ (kind_of error.now ≡ ErrorKind.DisplayVersion) → result ≡ 0 }
    ensures memory { kind_of error.now ≡ ErrorKind.OutOfMemory → result ≡ 1 }
    ensures mistake { (kind_of error.now ≢ ErrorKind.DisplayHelp)
        → (kind_of error.now ≢ ErrorKind.DisplayVersion)
        → (kind_of error.now ≢ ErrorKind.OutOfMemory) → result ≡ 64 }
{
    match error.kind() {
        ErrorKind::DisplayHelp | ErrorKind::DisplayVersion => 0,
        ErrorKind::OutOfMemory => 1,
        _ => 64,
    }
}
