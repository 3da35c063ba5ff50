//! What a command says, before it is written.
ghost use Rattle.std.specs.Prelude.{◌≡◌, IfOk};
ghost use Rattle.call_answer.specs.declared.done.Done.TheVariants.{Good, Rejected};
ghost use Rattle.call_answer.specs.Sinks.{Writes, sink_view};

use crate::done::Done;
use crate::put::put_text;
use base_memory::Stopped;
use base_text::store::{PutFailed, Sink};

/// A status and the whole text that goes with it.
#[derive(Drop)]
pub struct Said {
    pub status: Done,
    pub text: Vec<u8>,
}

impl Said {
    /// The text, and all is well.
    pub fn good(text: Vec<u8>) -> Said
        ensures { result ≡ record { status = Good; text = text } }
    {
        Said {
            status: Done::Good,
            text,
        }
    }

    /// The text, and what was checked is rejected.
    pub fn rejected(text: Vec<u8>) -> Said
        ensures { result ≡ record { status = Rejected; text = text } }
    {
        Said {
            status: Done::Rejected,
            text,
        }
    }
}

/// Puts the whole text, and gives its status.
pub fn put_said<O: Sink>(out: &mut O, said: &Said) -> Result<Done, Stopped<PutFailed>>
    ensures status { IfOk result (λ s. s ≡ said.now.status) }
    ensures text { Writes (sink_view O.written O.faults out.old)
        (sink_view O.written O.faults out.new) said.now.text.items result }
{
    put_text(out, said.text.as_slice())?;
    Ok(said.status)
}
