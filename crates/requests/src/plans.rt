//! Plans: what is asked for, with the texts as they were given.

/// Of which heaps a search is to find the quotient.
#[derive(Clone, Copy, Debug, PartialEq, Eq)]
pub enum Aim {
    /// Of all heaps; those up to `heaps` are looked at.
    Whole { heaps: u32 },
    /// Of all heaps; as many are looked at as show the period of each certificate of a game in which
    /// no move leaves three heaps.
    Deep,
    /// Of all heaps as `Deep`; and if that is given up, as `Furthest`.
    Any,
    /// Of the heaps 1 to `last`.
    Part { last: u32 },
    /// Of the most first heaps that have so few elements as are allowed.
    Furthest,
}

/// How far a search goes.
#[derive(Clone, Copy, Debug, PartialEq, Eq)]
pub struct SolveBounds {
    /// How many members the closure of each check may ever keep.
    pub limit: u32,
    /// How often the proposers are asked at most.
    pub rounds: u32,
    /// The most elements that a certificate may have.
    pub order: u32,
    /// Of which heaps the quotient is searched for.
    pub aim: Aim,
    /// Whether the cause is told where the search is given up.
    pub tells_why: bool,
}

/// How far the parts of a game are looked at, one after another.
#[derive(Clone, Copy, Debug, PartialEq, Eq)]
pub struct PartsBounds {
    /// How many members the closure of each check may ever keep.
    pub limit: u32,
    /// The most elements that a quotient may have.
    pub order: u32,
    /// The last heap.
    pub heaps: u32,
}

/// What the program is asked to do.
#[derive(PartialEq, Eq, Drop)]
pub enum Plan<'a> {
    /// Check the certificate in the file, or on standard input where no file is named, and keep
    /// at most so many members of its closure.
    Check {
        file: Option<&'a str>,
        limit: u32,
    },
    /// Judge the text in the file, or on standard input where no file is named, by its first word: a
    /// certificate, a presentation or a text of a whole game.
    Verify {
        file: Option<&'a str>,
        limit: u32,
    },
    /// Look for a quotient of the code.
    Solve {
        code: &'a str,
        bounds: SolveBounds,
    },
    /// Look for a quotient of each of these codes in turn.
    SolveMany {
        codes: Vec<&'a str>,
        bounds: SolveBounds,
    },
    /// Look for a quotient of the code of each line of standard input.
    SolveLines {
        bounds: SolveBounds,
    },
    /// Look among the first heaps of the code's game for a text of the whole game, unless only a
    /// presentation is wanted, or else for a presentation of a part whose quotient is infinite: of the
    /// heaps 1 to some n.
    SolveInfinite {
        code: &'a str,
        heaps: u32,
        presented: bool,
    },
    /// Print how many elements the quotients of the first heaps of a code have.
    Series {
        code: &'a str,
        bounds: PartsBounds,
    },
    /// Print the quotient that the file certifies under the limit, or standard input where no file
    /// is named.
    Show {
        file: Option<&'a str>,
        limit: u32,
    },
    /// Print beyond which heap the whole game is normal play whose heaps the file, or standard input
    /// where no file is named, certifies under the limit.
    Tail {
        file: Option<&'a str>,
        limit: u32,
    },
    /// Describe the quotient that the file certifies under the limit, or standard input where no file
    /// is named, by the reduced basis of its relations or else by a short list.
    Describe {
        file: Option<&'a str>,
        output: Output,
        basis: bool,
        limit: u32,
    },
    /// Answer in a position by the quotient that the file certifies under the limit, or standard
    /// input where no file is named.
    Play {
        file: Option<&'a str>,
        position: &'a str,
        limit: u32,
    },
    /// Answer in the position of each line of standard input by the quotient that the file certifies
    /// under the limit.
    PlayLines {
        file: &'a str,
        limit: u32,
    },
    /// Print each winning move in a position by the quotient that the file certifies under the limit,
    /// or standard input where no file is named.
    Wins {
        file: Option<&'a str>,
        position: &'a str,
        limit: u32,
    },
    /// Print the element of a position in the quotient that the file certifies under the limit, or
    /// standard input where no file is named.
    Value {
        file: Option<&'a str>,
        position: &'a str,
        limit: u32,
    },
    /// Tell two positions apart by the quotient that the file certifies under the limit, or standard
    /// input where no file is named.
    Apart {
        file: Option<&'a str>,
        first: &'a str,
        second: &'a str,
        limit: u32,
    },
    /// Compare the quotients that the two files certify under the limit, where one that isn't named is
    /// on standard input.
    Compare {
        first: Option<&'a str>,
        second: Option<&'a str>,
        limit: u32,
    },
    /// Print the certificate of the quotient that the file describes, or standard input where no file is
    /// named, once it is checked under the limit.
    Certify {
        file: Option<&'a str>,
        limit: u32,
    },
    /// Tell why the text in the file, or on standard input where no file is named, is no certificate's.
    Explain {
        file: Option<&'a str>,
    },
    /// Print the monoid that the text presents.
    Present {
        text: &'a str,
    },
    /// Do something with the catalogue in the file; each certificate is checked under the limit.
    Catalogue {
        file: &'a str,
        task: CatalogueTask<'a>,
        limit: u32,
    },
    /// Take the steps of the script in the file, one after another at one desk.
    Desk {
        script: &'a str,
    },
    /// Check the text of an infinite quotient in the file, or on standard input where no file is named.
    Infinite {
        file: Option<&'a str>,
    },
    /// Print the infinite quotient that the file gives, or standard input where no file is named.
    ShowInfinite {
        file: Option<&'a str>,
        layout: Layout,
    },
    /// Answer in a position by the infinite quotient that the file gives, or standard input where no
    /// file is named.
    PlayInfinite {
        file: Option<&'a str>,
        position: &'a str,
    },
    /// Answer in the position of each line of standard input by the infinite quotient that the file
    /// gives.
    PlayInfiniteLines {
        file: &'a str,
    },
}

/// What is printed of a quotient that is described.
#[derive(Clone, Copy, Debug, PartialEq, Eq)]
pub enum Output {
    /// The whole description.
    Description,
    /// The same for LaTeX.
    Latex,
    /// The same as one object of JSON.
    Json,
    /// Its relations alone, as one word that `present` takes.
    Relations,
    /// The ideal of its relations, for Singular.
    Singular,
    /// The same for GAP.
    Gap,
    /// Its multiplication table, for GAP.
    GapTable,
    /// Its idempotents, with the archimedean component and the group of each.
    Structure,
    /// The text of its presentation, which `verify` judges.
    Presentation,
}

/// How an infinite quotient is printed.
#[derive(Clone, Copy, Debug, PartialEq, Eq)]
pub enum Layout {
    /// In lines for readers.
    Lines,
    /// For LaTeX.
    Latex,
    /// As one object of JSON.
    Json,
}

/// What is asked of a catalogue.
#[derive(Clone, Copy, PartialEq, Eq)]
pub enum CatalogueTask<'a> {
    /// Print a line for each entry.
    Print,
    /// Print a table of the entries: a line of fields for each, or as an array of JSON.
    Table { json: bool },
    /// Write an empty catalogue, without reading the file.
    New,
    /// Add the certificate in this file.
    Add(&'a str),
    /// Write a catalogue of the certificate in this file alone, without reading the catalogue.
    NewWith(&'a str),
    /// Print the certificate of this code: with 0 heaps that of the whole game, and else that of
    /// the heaps up to `heaps`.
    Get { code: &'a str, heaps: u32 },
    /// Keep the entries that are certified, and tell the others.
    Salvage,
    /// Write the entries as a file of the newest version, and tell how many they are.
    Migrate,
}
