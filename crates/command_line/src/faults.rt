//! Why a command line asks for nothing.
ghost use Rattle.std.specs.Prelude.{◌≡◌};
ghost use Rattle.command_line.specs.Status.{exclusion_text, range_text, status_of, text_of};

use crate::numbers::Quantity;

/// Options that exclude each other, by the command that takes them.
#[derive(Clone, Copy, Debug, PartialEq, Eq)]
pub enum Exclusion {
    /// `--all` of `play` beside positions on standard input.
    All,
    /// Those of `catalogue`, or one without that which it needs.
    Catalogue,
    /// The two certificates of `compare`, both on standard input.
    Compare,
    /// `--latex` and `--relations` of `describe`, without those of `Outputs`.
    Description,
    /// The file, the code and the position of `explain`.
    Explain,
    /// The options of `describe` that say what is printed, another one than `--latex` and `--relations`
    /// among them.
    Outputs,
    /// `--show` of `infinite` beside a position.
    Infinite,
    /// `--latex` and `--json` of `infinite`, both of them or without `--show`.
    Layout,
    /// The certificate and the positions of `play` or `infinite`, both on standard input.
    Play,
    /// The options of `solve` that say how far a search goes, without `--infinite`.
    Solve,
    /// `--infinite` of `solve` beside what it doesn't go with.
    SolveInfinite,
}

/// Why the words ask for nothing that the program does.
#[derive(Debug, Drop)]
pub enum UsageFault {
    /// A growth was refused.
    Memory,
    /// The words ask for help or for the version, which is this text.
    Help(String),
    /// The words are refused, as this text says.
    Words(String),
    /// A number isn't one of its range, in decimal without leading zeros.
    Number(Quantity),
    /// Options stand together that exclude each other, or one without that which it needs.
    Exclusive(Exclusion),
    /// A command is missing, or an argument that it needs.
    Incomplete,
}

/// What is told of a number out of its range.
fn range_line(quantity: Quantity) -> &'static str
    ensures { result.now ≡ range_text quantity }
{
    match quantity {
        Quantity::Limit => "misere: the limit is a number from 1 to 1000000\n",
        Quantity::Rounds => "misere: the rounds are a number from 1 to 1000\n",
        Quantity::Heaps => "misere: the heaps are a number from 2 to 64\n",
        Quantity::Order => "misere: the order is a number from 2 to 256\n",
        Quantity::DeepOrder | Quantity::PartOrder | Quantity::Furthest =>
            "misere: the order is a number from 2 to 4096\n",
        Quantity::Last | Quantity::SeriesLast => "misere: the heaps are a number from 1 to 1024\n",
        Quantity::Part => "misere: the heaps are a number from 0 to 1024\n",
    }
}

/// What is told of options that exclude each other.
fn exclusion_line(exclusion: Exclusion) -> &'static str
    ensures { result.now ≡ exclusion_text exclusion }
{
    match exclusion {
        Exclusion::All => "misere: --all takes one position\n",
        Exclusion::Catalogue => {
            "misere: --heaps goes with --get, --json with --table, --get without --new and --add, --salvage, --migrate and --table alone\n"
        }
        Exclusion::Compare => "misere: standard input has one of the two certificates\n",
        Exclusion::Description => "misere: --latex goes without --relations\n",
        Exclusion::Explain => "misere: one of FILE, --code and --position\n",
        Exclusion::Outputs => {
            "misere: one of --latex, --relations, --json, --singular, --gap, --gap-table, --structure and --presentation\n"
        }
        Exclusion::Infinite => "misere: --show goes without POSITION\n",
        Exclusion::Layout => "misere: --latex or --json goes with --show, one of them\n",
        Exclusion::Play => "misere: standard input has the certificate or the positions\n",
        Exclusion::Solve => {
            "misere: one of --heaps, --deep, --any, --partial and --furthest, and --furthest without --order\n"
        }
        Exclusion::SolveInfinite => {
            "misere: --infinite takes one code, and goes with --heaps, --presented and --why alone; --presented needs --infinite\n"
        }
    }
}

impl UsageFault {
    /// The exit status of a run that meets the fault.
    pub fn status(&self) -> u8
        ensures { result ≡ status_of self.now }
    {
        match self {
            UsageFault::Help(_) => 0,
            UsageFault::Words(_)
            | UsageFault::Number(_)
            | UsageFault::Exclusive(_)
            | UsageFault::Incomplete => 2,
            UsageFault::Memory => 3,
        }
    }

    /// What is told of the fault: help on standard output, all else on standard error.
    pub fn text(&self) -> &str
        ensures { result.now ≡ text_of self.now }
    {
        match self {
            UsageFault::Memory => "misere: out of memory\n",
            UsageFault::Help(text) | UsageFault::Words(text) => text.as_str(),
            UsageFault::Number(quantity) => range_line(*quantity),
            UsageFault::Exclusive(exclusion) => exclusion_line(*exclusion),
            UsageFault::Incomplete => "misere: no command; see misere --help\n",
        }
    }
}
