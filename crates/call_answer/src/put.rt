//! Texts to a sink.
ghost use Rattle.std.specs.Prelude.{◌≡◌, map};
ghost use Rattle.std.specs.List.{concat};
ghost use Rattle.call_answer.specs.Sinks.{Puts, Writes, sink_view};

use base_memory::Stopped;
use base_text::store::{PutFailed, Sink, put_all};

/// Puts the whole text, or stops where the sink does.
pub fn put_text<O: Sink>(out: &mut O, text: &[u8]) -> Result<(), Stopped<PutFailed>>
    ensures { Writes (sink_view O.written O.faults out.old) (sink_view O.written O.faults out.new)
        text.now result }
{
    put_all(out, text)?;
    Ok(())
}

/// Puts the pieces one after another.
pub fn put_pieces<K: Sink>(sink: &mut K, pieces: &[&[u8]]) -> Result<(), PutFailed>
    ensures { Puts (sink_view K.written K.faults sink.old) (sink_view K.written K.faults sink.new)
        (concat (map (λ piece. piece.now) pieces.now)) result }
{
    for piece in pieces {
        put_all(sink, piece)?;
    }
    Ok(())
}
