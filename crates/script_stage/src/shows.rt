//! What blocks and variables show.

ghost use Rattle.std.specs.Prelude.{◌≡◌, IfOk};
ghost use Rattle.script_meaning.specs.State.{State};
ghost use Rattle.script_meaning.specs.Step.{bytes_text, shown_block, shown_variable};
ghost use Rattle.script_stage.specs.Standing as standing;
ghost use Rattle.script_stage.specs.Standing.{Does, Stands, TellsLine};
ghost use Rattle.transcript_text.specs.Texts.{ended};

use crate::errors::StepError;
use crate::placed::{Kind, Span};
use crate::stages::Stage;
use std::alloc::Global;
use transcript_text::{Refusal, hex_of_bytes};
use xp_base::{Bytes, Memory, dec_text};

/// The line of these bytes: two hexadecimal digits for each; `-` stands for none. The one error is
/// want of memory.
fn bytes_line(alloc: Global, bytes: &[u8]) -> Result<Bytes, Memory>
    ensures { IfOk result (λ line. line ≡ ended (bytes_text bytes.now)) }
{
    let mut line = if bytes.is_empty() {
        Bytes::copy(alloc, b"-")?
    } else {
        hex_of_bytes(alloc, bytes)?
    };
    line.append(b"\n")?;
    Ok(line)
}

impl<'a> Stage<'a> {
    /// Where the data of the block of a name stands. It is refused where no block has the name, or
    /// an object has it.
    pub(crate) fn data_named(&self, name: &[u8]) -> Result<Span, Refusal>
        ensures { (state : State) → Stands self.now state
            → result ≡ standing.data_named state name.now }
    {
        let Some(block) = self.named(name) else {
            return Err(Refusal::NoName);
        };
        match block.kind {
            Kind::Data { length } => Ok(Span {
                at: block.at,
                length,
            }),
            Kind::Object { .. } => Err(Refusal::NotData),
        }
    }

    /// The line that shows the bytes of a block. It is refused where no block has the name, or an
    /// object has it.
    pub fn show_block(&self, alloc: Global, name: &[u8]) -> Result<Bytes, StepError>
        ensures { Does
            TellsLine
            (λ state. shown_block state name.now)
            self.now
            self.now
            result }
    {
        let data = self.data_named(name)?;
        let bytes = self.machine.bytes(data.at, data.length).unwrap_or(&[]);
        Ok(bytes_line(alloc, bytes)?)
    }

    /// The line that shows the number of a variable. It is refused where no variable has the name.
    pub fn show_variable(&self, alloc: Global, name: &[u8]) -> Result<Bytes, StepError>
        ensures { Does
            TellsLine
            (λ state. shown_variable state name.now)
            self.now
            self.now
            result }
    {
        let Some(number) = self.variables.find(name) else {
            return Err(StepError::Refused(Refusal::NoName));
        };
        let mut line = dec_text(alloc, number)?;
        line.append(b"\n")?;
        Ok(line)
    }
}
