//! Tasks on a catalogue with each call of the folder failing, and a desk's script of which a line can
//! not be written.
use crate::certificates::{OF_0_3, OF_0_33, OF_0_75, RIGHT_UP_TO_8};
use crate::comparing::compare;
use crate::rows::{Row, count_held};
use allocation::Memory;
use catalogue_command::act;
use command_results::Stop;
use desk_command::run_file;
use devices::FailingSink;
use requests::CatalogueTask;
use std::alloc::Global;
use streams::{MemoryFolder, MemorySink};

/// The catalogue of the quotient of 0.3.
const ONE_ENTRY: &str =
    "{\"entries\":[{\"certificate\":\"mqc 1\\ncode 0.3\\norder 2\\nstart 1\\nperiod 2\\nphi 1 0\\n\
portion 1\\nwords 0:1\\nrow 0 1\\nrow 1 0\\napart 0\\nend\\n\
\",\"code\":\"0.3\",\"heaps\":0}],\"version\":2}\n";

/// A certificate that is added, and the catalogue.
static FILES: [(&str, &str); 2] = [("0.33.mqc", OF_0_33), ("x.json", ONE_ENTRY)];

/// A folder of these files, of which this call fails.
fn folder_of(alloc: Global, files: &[(&str, &str)], failing: u64) -> Result<MemoryFolder, Memory> {
    let mut folder = MemoryFolder::failing(alloc, failing);
    for (name, text) in files {
        folder.put(name, text.as_bytes())?;
    }
    Ok(folder)
}

/// Whether a task stops for this reason.
fn stops(
    alloc: Global,
    folder: &mut MemoryFolder,
    task: CatalogueTask<'_>,
    wanted: Stop<'_>,
) -> bool {
    match act(alloc, folder, "x.json", task, 1000) {
        Ok(_) => false,
        Err(stop) => stop == wanted,
    }
}

/// Whether the catalogue is as it was.
fn is_kept(folder: &MemoryFolder) -> bool {
    match folder.bytes("x.json") {
        Some(bytes) => bytes == ONE_ENTRY.as_bytes(),
        None => false,
    }
}

/// The call of the folder that fails, and why the task stops, which leaves the file as it was.
struct Failure(u64, CatalogueTask<'static>, Stop<'static>);

impl Row for Failure {
    fn holds(&self, alloc: Global) -> bool {
        let Failure(call, task, stop) = *self;
        match folder_of(alloc, &FILES, call) {
            Ok(mut folder) => stops(alloc, &mut folder, task, stop) && is_kept(&folder),
            Err(_) => false,
        }
    }
}

static FAILURES: [Failure; 12] = [
    Failure(1, CatalogueTask::Print, Stop::Read("x.json")),
    Failure(
        1,
        CatalogueTask::Get {
            code: "0.3",
            heaps: 0,
        },
        Stop::Read("x.json"),
    ),
    Failure(1, CatalogueTask::New, Stop::Write),
    Failure(1, CatalogueTask::Add("0.33.mqc"), Stop::Read("x.json")),
    Failure(2, CatalogueTask::Add("0.33.mqc"), Stop::Read("0.33.mqc")),
    Failure(3, CatalogueTask::Add("0.33.mqc"), Stop::Write),
    Failure(
        1,
        CatalogueTask::NewWith("0.33.mqc"),
        Stop::Read("0.33.mqc"),
    ),
    Failure(2, CatalogueTask::NewWith("0.33.mqc"), Stop::Write),
    Failure(1, CatalogueTask::Salvage, Stop::Read("x.json")),
    Failure(2, CatalogueTask::Salvage, Stop::Write),
    Failure(1, CatalogueTask::Migrate, Stop::Read("x.json")),
    Failure(2, CatalogueTask::Migrate, Stop::Write),
];

/// The quotients of 0.3 and 0.75, and a wrong one of 0.75.
static OF_THE_DESK: [(&str, &str); 3] = [
    ("a.mqc", OF_0_3),
    ("c.mqc", OF_0_75),
    ("d.mqc", RIGHT_UP_TO_8),
];

/// Two clients in turn, of whom one has a wrong certificate.
const STEPS: &str =
    "open 1 c.mqc 2048\nopen 2 d.mqc 2048\nwork 1 1 0\nwork 2 1 1000000\nask 1 1 1\n\
work 1 1 1000000\nask 1 1 1 9\nplay 1 1 10\nask 2 1 1\ndrop 2 1\nwork 2 1 5\n";

const LINES: &str = "opened 1\nopened 1\ngoing\nno 7 Outcome\nrefused 22 NotCertified\n\
yes 0.75 order 8 start 8 period 2\nP\nwins 10 -> 2 6\nrefused 22 NotCertified\ndropped\n\
refused 21 NoJob\n";

/// Whether the script of the folder ends with status 3, since a line can't be written.
fn stops_writing(
    alloc: Global,
    folder: &mut MemoryFolder,
    out: &mut FailingSink<MemorySink>,
) -> bool {
    let mut err = MemorySink::new(alloc);
    run_file(alloc, "steps", folder, out, &mut err) == 3
        && err.bytes() == b"misere: cannot write\n".as_slice()
}

/// Whether the script stops where its line of this number can't be written, which is told, and what
/// is there is a beginning of its lines.
fn is_cut_short(alloc: Global, n: u64) -> bool {
    let Ok(mut folder) = folder_of(alloc, &OF_THE_DESK, 0) else {
        return false;
    };
    if folder.put("steps", STEPS.as_bytes()).is_err() {
        return false;
    }
    let mut out = FailingSink::new(MemorySink::new(alloc), n);
    stops_writing(alloc, &mut folder, &mut out)
        && LINES.as_bytes().starts_with(out.within().bytes())
}

/// The first line that can't be written and where the script doesn't stop so, up to 12.
fn first_not_cut(alloc: Global) -> u64 {
    for n in 1..12u64 {
        if !is_cut_short(alloc, n) {
            return n;
        }
    }
    12
}

#[test]
fn stops_where_a_call_fails(rt: HostRuntime) {
    compare(&rt, "FAILURES", count_held(rt.alloc(), &FAILURES), 12);
    compare(&rt, "lines", first_not_cut(rt.alloc()), 12);
}
