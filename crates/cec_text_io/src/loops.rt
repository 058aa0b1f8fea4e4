// The line of a combinational cycle.

ghost use Rattle.std.specs.Prelude.{◌++◌, codes, flat_map};
ghost use Rattle.base_types.specs.Writing.{Wrote};
ghost use Rattle.cec_text_io.specs.ErrorLines.{joined_names};

use base_types::{Sink, SinkFault, Text, write_pieces};

/// The line of a combinational cycle with these names, after the name of the program. Writing it takes no memory; a
/// prefix of the line was appended where the sink failed.
pub fn put_loop<E: Sink>(err: &mut E, program: &[u8], names: &[Text]) -> Result<(), SinkFault>
    ensures { Wrote (E.told err.old) (E.told err.new) (E.faults err.old) (E.faults err.new)
        (program.now ++ ((codes "loop: " ++ joined_names names.now) ++ codes "\n")) result }
{
    if let Err(fault) = write_pieces(err, &[program, b"loop: "]) {
        return Err(fault);
    }
    if let Err(fault) = put_joined(err, names) {
        return Err(fault);
    }
    write_pieces(err, &[b"\n"])
}

// Names, joined by ` -> `.
fn put_joined<E: Sink>(err: &mut E, names: &[Text]) -> Result<(), SinkFault>
    ensures { Wrote (E.told err.old) (E.told err.new) (E.faults err.old) (E.faults err.new)
        (joined_names names.now) result }
{
    let Some((first, others)) = names.split_first() else {
        return Ok(());
    };
    if let Err(fault) = err.write(first.bytes()) {
        return Err(fault);
    }
    put_others(err, others)
}

// More names, each after ` -> `.
fn put_others<E: Sink>(err: &mut E, names: &[Text]) -> Result<(), SinkFault>
    ensures { Wrote (E.told err.old) (E.told err.new) (E.faults err.old) (E.faults err.new)
        (flat_map (λ name. codes " -> " ++ name) names.now) result }
{
    for name in names {
        if let Err(fault) = put_other(err, name) {
            return Err(fault);
        }
    }
    Ok(())
}

// A name after ` -> `.
fn put_other<E: Sink>(err: &mut E, name: &Text) -> Result<(), SinkFault>
    ensures { Wrote (E.told err.old) (E.told err.new) (E.faults err.old) (E.faults err.new)
        (codes " -> " ++ name.now) result }
{
    write_pieces(err, &[b" -> ", name.bytes()])
}
