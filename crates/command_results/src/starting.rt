//! The words that a program is given, and its end where there are none.
ghost use Rattle.std.specs.Prelude.{◌≡◌, ◌≢◌, Err, IfErr, IfOk, IsErr, MatchResult};
ghost use Rattle.std.specs.IoError.{error_kind};
ghost use Rattle.std.specs.Vec.Iter.{into_iter_items};
ghost use Rattle.std.specs.Process.{exit_status};
ghost use Rattle.streams.specs.Printers.{PrintsLine, printer};
ghost use Rattle.command_results.specs.Stops.{stop_line, stop_status};

use crate::stop::Stop;
use std::alloc::Global;
use std::env::Args;
use std::io;
use std::io::ErrorKind;
use std::process::ExitCode;
use streams::Sink;

/// Why the machine gave no words.
fn no_words(kind: ErrorKind) -> Stop<'static>
    ensures utf8 { kind ≡ ErrorKind.InvalidData → result ≡ Stop.NotUtf8 }
    ensures memory { kind ≢ ErrorKind.InvalidData → result ≡ Stop.Memory }
{
    if kind == ErrorKind::InvalidData {
        Stop::NotUtf8
    } else {
        Stop::Memory
    }
}

/// The program's words, its name first: all that the machine gave, as it gave them and in order; or
/// else why there are none.
pub fn words_of(alloc: Global, args: io::Result<Args>) -> Result<Vec<String>, Stop<'static>>
    ensures words { MatchResult args
        (λ given. IfOk result (λ words. words.items ≡ into_iter_items given)) (λ e. IsErr result) }
    ensures memory { IfOk args (λ given. IfErr result (λ stop. stop ≡ Stop.Memory)) }
    ensures utf8 { IfErr args (λ e. error_kind e ≡ ErrorKind.InvalidData → result ≡ Err Stop.NotUtf8) }
    ensures other { IfErr args (λ e. error_kind e ≢ ErrorKind.InvalidData → result ≡ Err Stop.Memory) }
{
    match args {
        Ok(given) => Ok(given.collect(alloc)?),
        Err(e) => Err(no_words(e.kind())),
    }
}

/// Tells why the program ends before it runs.
pub fn stopped<E: Sink>(stop: Stop<'_>, err: &mut E) -> ExitCode
    ensures status { exit_status result ≡ stop_status stop.entry }
    ensures told { PrintsLine (printer (E.taken err.old) (E.failures err.old))
        (printer (E.taken err.new) (E.failures err.new)) (stop_line stop.entry) }
{
    stop.tell(err);
    ExitCode::from(stop.status())
}
