//! What a lake is handed from outside: where its script comes from, where its replies go, the ports behind
//! which blobs are kept, the gate that attempts pass, and the plan of the servers.
//!
//! Each trait counts its faults. A count never falls, and a call that answers a failure has raised it. A
//! count that has come to the last number of 64 bits stands still there, and is taken as risen in each call.
//!
//! What the clauses say: every source tells the bytes that it gave and every sink those that it
//! took, where it tells any. `MemSource` and `MemSink` fail exactly at the calls that they are
//! told (`fails`); `SureSource` never fails, and `SureSink` only for want of memory.
//! `PoolPlan::standing` is exactly `standing_of` of `specs/Plans`.
#![tactic(auto)]

mod calls;
mod dead;
mod errors;
mod gates;
mod plans;
mod ports;
mod sinks;
mod sources;
mod streams;

pub use calls::CallCount;
pub use dead::{DeadBlob, DeadBlock, DeadPort};
pub use errors::{Failed, PortError, PutError};
pub use gates::{Gate, OpenGate, Ticket};
pub use plans::{Move, Moves, PoolPlan, Standing};
pub use ports::{Blobs, Blocks, Port, Staged, Stored};
pub use sinks::{MemSink, OutputSink, SureSink};
pub use sources::{InputSource, MemSource, SureSource};
pub use streams::{Sink, Source};
