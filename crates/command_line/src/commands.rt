//! The commands and their arguments, as `clap` reads them.
ghost use Rattle.std.specs.Prelude.{◌≡◌, ◌++◌, ◌∷◌, [], List, IfOk, codes, false, true};
ghost use Rattle.clap.specs.Words.{App, Rule, Text, app_of, new_app, rule_of, with_subcommand};
ghost use Rattle.command_line.specs.Program.{apart, catalogue, certify, check, command, compare, describe, desk, explain, flag, infinite, misere, needed};
ghost use Rattle.command_line.specs.Program.{option, optional, play, present, program, series, several, show, solve, tail, value, verify};

use clap::{Arg, ArgAction, Command};
use std::alloc::{AllocError, Global};

/// The program's version.
pub const VERSION: &str = "0.6.0";

/// Where a certificate is, if it may be left out.
const GIVEN: &str = "The file of the certificate; without it, or as -, standard input";

/// Where a certificate is.
const NAMED: &str = "The file of the certificate; as - standard input";

/// A position.
const POSITION: &str = "The sizes of the heaps in one word, as '1 2 2'; 0 for no heap";

/// An argument that may be left out, told by its place.
fn optional<'a>(alloc: Global, name: &'a str, shown: &'a str, help: &'a str) -> Arg<'a>
    ensures rule { rule_of result ≡ optional name.entry.now }
    ensures local { result.global ≡ false }
{
    Arg::new(alloc, name).value_name(shown).help(help)
}

/// An argument that is needed, told by its place.
fn needed<'a>(alloc: Global, name: &'a str, shown: &'a str, help: &'a str) -> Arg<'a>
    ensures rule { rule_of result ≡ needed name.entry.now }
    ensures local { result.global ≡ false }
{
    Arg::new(alloc, name)
        .value_name(shown)
        .help(help)
        .required(true)
}

/// One or more arguments that are needed, told by their places.
fn several<'a>(alloc: Global, name: &'a str, shown: &'a str, help: &'a str) -> Arg<'a>
    ensures rule { rule_of result ≡ several name.entry.now }
    ensures local { result.global ≡ false }
{
    needed(alloc, name, shown, help).num_args(1..)
}

/// An option with a value.
fn option<'a>(alloc: Global, name: &'a str, shown: &'a str, help: &'a str) -> Arg<'a>
    ensures rule { rule_of result ≡ option name.entry.now }
    ensures local { result.global ≡ false }
{
    Arg::new(alloc, name)
        .long(name)
        .action(ArgAction::Set)
        .value_name(shown)
        .help(help)
}

/// An option without a value.
fn flag<'a>(alloc: Global, name: &'a str, help: &'a str) -> Arg<'a>
    ensures rule { rule_of result ≡ flag name.entry.now }
    ensures local { result.global ≡ false }
{
    Arg::new(alloc, name)
        .long(name)
        .action(ArgAction::SetTrue)
        .help(help)
}

fn limit<'a>(alloc: Global) -> Arg<'a>
    ensures rule { rule_of result ≡ option (codes "limit") }
    ensures local { result.global ≡ false }
{
    option(
        alloc,
        "limit",
        "N",
        "Keep at most N members of a closure: 1 to 1000000, by default 100000",
    )
}

/// A command without arguments.
fn command<'a>(alloc: Global, name: &'a str, about: &'a str) -> Command<'a>
    ensures { app_of result ≡ new_app name.entry.now }
{
    Command::new(alloc, name).about(about)
}

/// The command with one argument more, where it was made.
fn with_arg<'a>(
    made: Result<Command<'a>, AllocError>,
    arg: Arg<'a>,
) -> Result<Command<'a>, AllocError>
    ensures { (name : Text) (rules : List Rule) (rule : Rule)
        → IfOk made.entry (λ c. app_of c ≡ command name rules)
        → rule_of arg.entry ≡ rule → arg.entry.global ≡ false
        → IfOk result (λ new. app_of new ≡ command name (rules ++ rule ∷ [])) }
{
    let Ok(made) = made else {
        drop(arg);
        return Err(AllocError);
    };
    made.arg(arg)
}

fn check_command<'a>(alloc: Global) -> Result<Command<'a>, AllocError>
    ensures { IfOk result (λ c. app_of c ≡ check) }
{
    let about = "Check a certificate, and print the verdict";
    let made = Ok(command(alloc, "check", about));
    let made = with_arg(made, optional(alloc, "file", "FILE", GIVEN));
    with_arg(made, limit(alloc))
}

fn solve_command<'a>(alloc: Global) -> Result<Command<'a>, AllocError>
    ensures { IfOk result (λ c. app_of c ≡ solve) }
{
    let about = "Look for the misère quotient of each code, and print its certificate";
    let code = "The code of a game, octal or hexadecimal, as 0.77; as - alone each line of \
standard input";
    let rounds = "Give up after R rounds: 1 to 1000, by default 64";
    let heaps = "Look at the heaps up to M: 2 to 64, by default 24";
    let deep =
        "Look at as many heaps as a certificate of a game in which no move leaves three heaps can \
need, and orders to 256 by default";
    let any = "Look as --deep, and if that gives up, for the most heaps 1 to M, as --furthest";
    let part = "Look for the quotient of the heaps 1 to M alone: 1 to 1024";
    let furthest =
        "Look for the most heaps 1 to M whose quotient has at most Q elements: 2 to 4096";
    let order = "Propose no quotient of more than Q elements: 2 to 256, by default 64, with \
--deep, --any and --partial 2 to 4096";
    let why = "Tell why the search is given up";
    let infinite = "Look for the text of the whole game, or else for a presentation of a part, the \
heaps 1 to some n, whose quotient is infinite: n to M of --heaps, 1 to 1024, by default 64";
    let presented = "With --infinite: look for a presentation alone";
    let made = Ok(command(alloc, "solve", about));
    let made = with_arg(made, several(alloc, "code", "CODE", code));
    let made = with_arg(made, limit(alloc));
    let made = with_arg(made, option(alloc, "rounds", "R", rounds));
    let made = with_arg(made, option(alloc, "heaps", "M", heaps));
    let made = with_arg(made, flag(alloc, "deep", deep));
    let made = with_arg(made, flag(alloc, "any", any));
    let made = with_arg(made, option(alloc, "partial", "M", part));
    let made = with_arg(made, option(alloc, "furthest", "Q", furthest));
    let made = with_arg(made, option(alloc, "order", "Q", order));
    let made = with_arg(made, flag(alloc, "why", why));
    let made = with_arg(made, flag(alloc, "infinite", infinite));
    with_arg(made, flag(alloc, "presented", presented))
}

fn series_command<'a>(alloc: Global) -> Result<Command<'a>, AllocError>
    ensures { IfOk result (λ c. app_of c ≡ series) }
{
    let about = "Print how many elements the quotient of the heaps 1 to n has, from n = 1 on";
    let code = "The code of a game, octal or hexadecimal, as 0.77";
    let order =
        "End before the first quotient that isn't found with at most Q elements: 2 to 4096, by default 256";
    let heaps = "End with n = M: 1 to 1024, by default 64";
    let made = Ok(command(alloc, "series", about));
    let made = with_arg(made, needed(alloc, "code", "CODE", code));
    let made = with_arg(made, option(alloc, "order", "Q", order));
    let made = with_arg(made, option(alloc, "heaps", "M", heaps));
    with_arg(made, limit(alloc))
}

fn show_command<'a>(alloc: Global) -> Result<Command<'a>, AllocError>
    ensures { IfOk result (λ c. app_of c ≡ show) }
{
    let about = "Check a certificate, and print the quotient that it certifies";
    let made = Ok(command(alloc, "show", about));
    let made = with_arg(made, needed(alloc, "file", "FILE", NAMED));
    with_arg(made, limit(alloc))
}

fn describe_command<'a>(alloc: Global) -> Result<Command<'a>, AllocError>
    ensures { IfOk result (λ c. app_of c ≡ describe) }
{
    let about = "Check a certificate, and print its quotient by generators and relations";
    let latex = "Print it for LaTeX";
    let basis = "Give the reduced basis of the relations, by which words are multiplied by hand";
    let relations = "Print the relations alone, in one word for 'misere present'";
    let json = "Print it as one object of JSON";
    let singular = "Print the ideal of the relations, for Singular";
    let gap = "Print the ideal of the relations, for GAP";
    let table = "Print the multiplication table, the portion and the heaps' elements, for GAP";
    let structure = "Print the idempotents, with the archimedean component and the group of each";
    let presentation = "Print the text of its presentation, which 'misere verify' checks";
    let made = Ok(command(alloc, "describe", about));
    let made = with_arg(made, optional(alloc, "file", "FILE", GIVEN));
    let made = with_arg(made, flag(alloc, "latex", latex));
    let made = with_arg(made, flag(alloc, "basis", basis));
    let made = with_arg(made, flag(alloc, "relations", relations));
    let made = with_arg(made, flag(alloc, "json", json));
    let made = with_arg(made, flag(alloc, "singular", singular));
    let made = with_arg(made, flag(alloc, "gap", gap));
    let made = with_arg(made, flag(alloc, "gap-table", table));
    let made = with_arg(made, flag(alloc, "structure", structure));
    let made = with_arg(made, flag(alloc, "presentation", presentation));
    with_arg(made, limit(alloc))
}

fn play_command<'a>(alloc: Global) -> Result<Command<'a>, AllocError>
    ensures { IfOk result (λ c. app_of c ≡ play) }
{
    let about = "Check a certificate, and print a winning move in a position";
    let position =
        "The sizes of the heaps in one word, as '1 2 2'; 0 for no heap; as - each line of \
standard input";
    let made = Ok(command(alloc, "play", about));
    let made = with_arg(made, needed(alloc, "file", "FILE", NAMED));
    let all = "Print each winning move";
    let made = with_arg(made, needed(alloc, "position", "POSITION", position));
    let made = with_arg(made, flag(alloc, "all", all));
    with_arg(made, limit(alloc))
}

fn compare_command<'a>(alloc: Global) -> Result<Command<'a>, AllocError>
    ensures { IfOk result (λ c. app_of c ≡ compare) }
{
    let about = "Check two certificates, and tell whether their quotients are isomorphic";
    let first = "The file of the first certificate; as - standard input";
    let second = "The file of the second certificate; as - standard input";
    let made = Ok(command(alloc, "compare", about));
    let made = with_arg(made, needed(alloc, "first", "FILE", first));
    let made = with_arg(made, needed(alloc, "second", "FILE", second));
    with_arg(made, limit(alloc))
}

fn certify_command<'a>(alloc: Global) -> Result<Command<'a>, AllocError>
    ensures { IfOk result (λ c. app_of c ≡ certify) }
{
    let about =
        "Make a certificate of a quotient that a table or a presentation gives, and print it once it is checked";
    let file = "The file of the quotient; as - standard input";
    let made = Ok(command(alloc, "certify", about));
    let made = with_arg(made, needed(alloc, "file", "FILE", file));
    with_arg(made, limit(alloc))
}

fn explain_command<'a>(alloc: Global) -> Result<Command<'a>, AllocError>
    ensures { IfOk result (λ c. app_of c ≡ explain) }
{
    let about = "Say why a text is no certificate's, no code or no position, and where";
    let file = "The file of a certificate's text; without it, or as -, standard input";
    let code = "Say why this word is no code; without FILE and --position";
    let position = "Say why this word is no position; without FILE and --code";
    let made = Ok(command(alloc, "explain", about));
    let made = with_arg(made, optional(alloc, "file", "FILE", file));
    let made = with_arg(made, option(alloc, "code", "WORD", code));
    with_arg(made, option(alloc, "position", "WORD", position))
}

fn present_command<'a>(alloc: Global) -> Result<Command<'a>, AllocError>
    ensures { IfOk result (λ c. app_of c ≡ present) }
{
    let about = "Print the table of the commutative monoid that relations present";
    let text = "The relations in one word, as 'a^2=1 b^3=b'";
    command(alloc, "present", about).arg(needed(alloc, "text", "TEXT", text))
}

fn catalogue_command<'a>(alloc: Global) -> Result<Command<'a>, AllocError>
    ensures { IfOk result (λ c. app_of c ≡ catalogue) }
{
    let about = "List the certificates in a catalogue, print one, or add to them";
    let new = "Begin with an empty catalogue; FILE isn't read";
    let add = "Add the certificate in the file CERT, and write FILE";
    let get = "Print the certificate of CODE; without --new and --add";
    let heaps = "With --get, that of the heaps up to M: 0 to 1024, by default 0, for all heaps";
    let salvage = "Keep the entries without a fault, and write FILE; without another option";
    let migrate = "Write FILE in the newest form, with the same entries; without another option";
    let table = "Print a table of the entries, with fields that tabs separate";
    let json = "With --table: print it as an array of JSON";
    let made = Ok(command(alloc, "catalogue", about));
    let made = with_arg(
        made,
        needed(alloc, "file", "FILE", "The file of the catalogue"),
    );
    let made = with_arg(made, flag(alloc, "new", new));
    let made = with_arg(made, option(alloc, "add", "CERT", add));
    let made = with_arg(made, option(alloc, "get", "CODE", get));
    let made = with_arg(made, option(alloc, "heaps", "M", heaps));
    let made = with_arg(made, flag(alloc, "salvage", salvage));
    let made = with_arg(made, flag(alloc, "migrate", migrate));
    let made = with_arg(made, flag(alloc, "table", table));
    let made = with_arg(made, flag(alloc, "json", json));
    with_arg(made, limit(alloc))
}

fn desk_command<'a>(alloc: Global) -> Result<Command<'a>, AllocError>
    ensures { IfOk result (λ c. app_of c ≡ desk) }
{
    let about = "Take the steps of a script, many checks at one desk, and print a line for each";
    let script =
        "The file of the script, with steps such as 'open 1 FILE 100000' or 'work 1 1 1000'";
    command(alloc, "desk", about).arg(needed(alloc, "script", "SCRIPT", script))
}

fn infinite_command<'a>(alloc: Global) -> Result<Command<'a>, AllocError>
    ensures { IfOk result (λ c. app_of c ≡ infinite) }
{
    let about = "Check a certificate of an infinite quotient, and print what it shows";
    let position =
        "Print a winning move in this position: the sizes of the heaps in one word; as - \
in that of each line of standard input";
    let show = "Print the quotient, as 'misere describe' does";
    let latex = "With --show: print it for LaTeX";
    let json = "With --show: print all of it as one object of JSON";
    let made = Ok(command(alloc, "infinite", about));
    let made = with_arg(made, needed(alloc, "file", "FILE", NAMED));
    let made = with_arg(made, optional(alloc, "position", "POSITION", position));
    let made = with_arg(made, flag(alloc, "show", show));
    let made = with_arg(made, flag(alloc, "latex", latex));
    with_arg(made, flag(alloc, "json", json))
}

/// The program's name, version and purpose.
fn misere_command<'a>(alloc: Global) -> Command<'a>
    ensures { app_of result ≡ misere }
{
    let about = "Finds, checks and plays with misère quotients of octal and hexadecimal games";
    Command::new(alloc, "misere").version(VERSION).about(about)
}

/// The program with one command more, where both were made.
fn with<'a>(
    program: Result<Command<'a>, AllocError>,
    command: Result<Command<'a>, AllocError>,
) -> Result<Command<'a>, AllocError>
    ensures { (above added : App) → IfOk program.entry (λ p. app_of p ≡ above)
        → IfOk command.entry (λ c. app_of c ≡ added)
        → added.top.is_plain ≡ true
        → IfOk result (λ new. app_of new ≡ with_subcommand above added.top) }
{
    let Ok(program) = program else {
        drop(command);
        return Err(AllocError);
    };
    let Ok(command) = command else {
        drop(program);
        return Err(AllocError);
    };
    program.subcommand(command)
}

fn tail_command<'a>(alloc: Global) -> Result<Command<'a>, AllocError>
    ensures { IfOk result (λ c. app_of c ≡ tail) }
{
    let about =
        "Check a partial certificate, and say beyond which heap its whole game is normal play";
    let made = Ok(command(alloc, "tail", about));
    let made = with_arg(made, needed(alloc, "file", "FILE", NAMED));
    with_arg(made, limit(alloc))
}

fn verify_command<'a>(alloc: Global) -> Result<Command<'a>, AllocError>
    ensures { IfOk result (λ c. app_of c ≡ verify) }
{
    let about = "Check a text of any kind, and print the verdict";
    let file = "The file of the text; without it, or as -, standard input";
    let made = Ok(command(alloc, "verify", about));
    let made = with_arg(made, optional(alloc, "file", "FILE", file));
    with_arg(made, limit(alloc))
}

fn value_command<'a>(alloc: Global) -> Result<Command<'a>, AllocError>
    ensures { IfOk result (λ c. app_of c ≡ value) }
{
    let about = "Check a certificate, and print the element of a position";
    let made = Ok(command(alloc, "value", about));
    let made = with_arg(made, needed(alloc, "file", "FILE", NAMED));
    let made = with_arg(made, needed(alloc, "position", "POSITION", POSITION));
    with_arg(made, limit(alloc))
}

fn apart_command<'a>(alloc: Global) -> Result<Command<'a>, AllocError>
    ensures { IfOk result (λ c. app_of c ≡ apart) }
{
    let about = "Check a certificate, and print a position that tells two positions apart";
    let made = Ok(command(alloc, "apart", about));
    let made = with_arg(made, needed(alloc, "file", "FILE", NAMED));
    let made = with_arg(made, needed(alloc, "first", "POSITION", POSITION));
    let made = with_arg(made, needed(alloc, "second", "POSITION", POSITION));
    with_arg(made, limit(alloc))
}

/// The program's command line.
pub fn program_command<'a>(alloc: Global) -> Result<Command<'a>, AllocError>
    ensures { IfOk result (λ c. app_of c ≡ program) }
{
    let program = Ok(misere_command(alloc));
    let program = with(program, check_command(alloc));
    let program = with(program, solve_command(alloc));
    let program = with(program, series_command(alloc));
    let program = with(program, show_command(alloc));
    let program = with(program, describe_command(alloc));
    let program = with(program, play_command(alloc));
    let program = with(program, compare_command(alloc));
    let program = with(program, certify_command(alloc));
    let program = with(program, explain_command(alloc));
    let program = with(program, present_command(alloc));
    let program = with(program, catalogue_command(alloc));
    let program = with(program, desk_command(alloc));
    let program = with(program, infinite_command(alloc));
    let program = with(program, tail_command(alloc));
    let program = with(program, verify_command(alloc));
    let program = with(program, value_command(alloc));
    with(program, apart_command(alloc))
}
