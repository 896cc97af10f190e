//! Writing a text whole over a sink that may take less at a time; a failure leaves a proper prefix.
ghost use Rattle.std.specs.Prelude.{◌≡◌, OnOk, OnErr, is_some};
ghost use Rattle.std.specs.Io.KnownBytes.{Appends};
ghost use Rattle.upd_base.specs.Edge.{HasCause};
ghost use Rattle.upd_io.specs.Whole.{AppendsLess};

use upd_base::{EdgeFault, Sink};

/// Writes the whole text. At an error the sink got a prefix of it, and not all of it.
pub fn write_all<K: Sink>(sink: &mut K, text: &[u8]) -> Result<(), EdgeFault>
    ensures whole { OnOk result (Appends (K.held sink.old) (K.held sink.new) text.now) }
    ensures front { OnErr result (AppendsLess (K.held sink.old) (K.held sink.new) text.now) }
    ensures tells { is_some (K.held sink.new) ≡ is_some (K.held sink.old) }
    ensures cause { HasCause (K.faults sink.old) (K.faults sink.new) result }
{
    let mut place = 0;
    while place < text.len() {
        place += sink.write(&text[place..])?;
    }
    Ok(())
}
