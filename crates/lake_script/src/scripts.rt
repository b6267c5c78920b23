//! Reading the script that a source gives.

ghost use Rattle.std.specs.Prelude.{◌≡◌, ◌<◌, ◌^◌, length, IfOk, IfErr};
ghost use Rattle.lake_script.specs.Headline.{ReadsScript, EndsReading};
ghost use Rattle.lake_script.specs.Scripts.{AreInTurn};

use crate::reading::{ReadEnd, read_all};
use crate::status::Status;
use lake_outside::Source;
use sql_model::Script;
use sql_parser::{ParseFault, parse_script};
use std::alloc::Global;

/// The script that the source's bytes are, read to their end; or the status by which the run ends before it.
pub fn read_script<S: Source>(alloc: Global, src: &mut S) -> Result<Script, Status>
    ensures script { IfOk result (λ script. ReadsScript (λ steps. steps ≡ script) (S.left src.old) (S.left src.new)) }
    ensures in_turn { IfOk result (AreInTurn 1) }
    ensures few { IfOk result (λ script. length script < 2 ^ 32) }
    ensures ended { IfErr result (EndsReading (S.left src.old) (S.left src.new) (S.faults src.old) (S.faults src.new)) }
{
    let bytes = match read_all(alloc, src) {
        Ok(bytes) => bytes,
        Err(ReadEnd::Fault) => return Err(Status::ReadFault),
        Err(ReadEnd::TooLong) => return Err(Status::TooLong),
        Err(ReadEnd::NoMemory) => return Err(Status::NoMemory),
    };
    match parse_script(alloc, bytes.as_slice()) {
        Ok(script) => Ok(script),
        Err(ParseFault::Refused(bad)) => Err(Status::ScriptRefused(bad)),
        Err(ParseFault::NoMemory) => Err(Status::NoMemory),
    }
}
