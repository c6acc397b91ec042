//! Lines on standard error. They take no memory.
ghost use Rattle.std.specs.Prelude.{◌++◌};
ghost use Rattle.streams.specs.Stream.{Counts, Puts};
ghost use Rattle.streams.specs.Printers.{PrintsLine, printer};

use streams::{DeviceFault, Sink, write_whole};

/// Puts three pieces, one behind the other.
fn put_pieces<E: Sink>(err: &mut E, front: &str, name: &str, back: &str) -> Result<(), DeviceFault>
    ensures puts { Puts (E.taken err.old) (E.taken err.new) result
        (front.now ++ (name.now ++ back.now)) }
    ensures cause { Counts (E.failures err.old) (E.failures err.new) result }
{
    write_whole(err, front.as_bytes())?;
    write_whole(err, name.as_bytes())?;
    write_whole(err, back.as_bytes())
}

/// Tells three pieces, one behind the other. Where the sink fails there is nobody left to tell.
pub fn tell<E: Sink>(err: &mut E, front: &str, name: &str, back: &str)
    ensures { PrintsLine (printer (E.taken err.old) (E.failures err.old))
        (printer (E.taken err.new) (E.failures err.new)) (front.now ++ (name.now ++ back.now)) }
{
    let _ = put_pieces(err, front, name, back);
}
