//! Sources and sinks that fail in mid-stream, a port and a gate that do nothing, and plans of
//! servers.

use lake_outside::{
    DeadPort, Failed, Gate, InputSource, MemSink, MemSource, Move, OpenGate, OutputSink, PoolPlan,
    Port, PortError, PutError, Sink, Source, Standing, SureSink, SureSource, Ticket,
};
use lake_values::{Kind, Listed, Name};
use std::alloc::Global;
use std::io;
use std::io::{ErrorKind, Read, Write};
use std::test::Fail;

/// A reader that gives two bytes, fails once, and then gives what is left of them.
#[derive(Drop)]
struct FailingReader<'a> {
    bytes: &'a [u8],
    reads: u32,
}

impl Read for FailingReader<'_> {
    fn read(&mut self, buf: &mut [u8]) -> io::Result<usize> {
        self.reads = self.reads.saturating_add(1);
        if self.reads == 2 {
            return Err(io::Error::from(ErrorKind::ConnectionReset));
        }
        let room = buf.len().min(2);
        self.bytes.read(&mut buf[..room])
    }
}

/// A writer that takes two bytes, fails once, then takes nothing once, and then takes everything.
#[derive(Drop)]
struct FailingWriter<'a> {
    taken: &'a mut Vec<u8>,
    writes: u32,
}

impl Write for FailingWriter<'_> {
    fn write(&mut self, buf: &[u8]) -> io::Result<usize> {
        self.writes = self.writes.saturating_add(1);
        match self.writes {
            1 => self.taken.write(&buf[..buf.len().min(2)]),
            2 => Err(io::Error::from(ErrorKind::BrokenPipe)),
            3 => Ok(0),
            _ => self.taken.write(buf),
        }
    }

    fn flush(&mut self) -> io::Result<()> {
        Ok(())
    }
}

/// What the next five calls of a source give, with `!` for a failure and `.` for an end.
fn taken<S: Source + Drop>(alloc: Global, mut source: S) -> Result<Vec<u8>, Fail> {
    let mut all = Vec::new(alloc);
    let mut room = [0u8; 4];
    for _ in 0..5 {
        match source.take(&mut room) {
            Ok(0) => all.push(b'.')?,
            Ok(count) => all.extend_from_slice(&room[..count])?,
            Err(Failed) => all.push(b'!')?,
        }
    }
    Ok(all)
}

#[test]
fn sources_give_their_bytes(rt: HostRuntime) -> Result<(), Fail> {
    let alloc = rt.alloc();
    let bytes = b"abcdef".as_slice();
    let sure = taken(alloc, SureSource::new(bytes.to_vec(alloc)?))?;
    assert_eq!(rt; sure.as_slice(), b"abcdef...".as_slice());
    let failing = MemSource::new(bytes.to_vec(alloc)?, vec![in alloc; 2, 4]?);
    assert_eq!(rt; taken(alloc, failing)?.as_slice(), b"abcd!ef!.".as_slice());
    let slice = taken(alloc, InputSource::new(bytes))?;
    assert_eq!(rt; slice.as_slice(), b"abcdef...".as_slice());
    let reader = FailingReader { bytes, reads: 0 };
    let read = taken(alloc, InputSource::new(reader))?;
    assert_eq!(rt; read.as_slice(), b"ab!cdef.".as_slice());
    Ok(())
}

/// The answers of a sink to the same piece, four times.
fn answers<K: Sink>(sink: &mut K) -> [Result<usize, PutError>; 4] {
    let mut put = || sink.put(b"abc");
    [put(), put(), put(), put()]
}

#[test]
fn sinks_take_their_bytes(rt: HostRuntime) -> Result<(), Fail> {
    let alloc = rt.alloc();
    let failed = Err(PutError::Failed);

    let mut sure = SureSink::new(alloc);
    assert_eq!(rt; answers(&mut sure), [Ok(3); 4]);
    assert_eq!(rt; sure.written(), b"abcabcabcabc".as_slice());

    let mut failing = MemSink::new(alloc, vec![in alloc; 1, 3]?);
    assert_eq!(rt; answers(&mut failing), [failed, Ok(3), failed, Ok(3)]);
    assert_eq!(rt; failing.written(), b"abcabc".as_slice());

    let mut kept = Vec::new(alloc);
    let mut output = OutputSink::new(FailingWriter {
        taken: &mut kept,
        writes: 0,
    });
    assert_eq!(rt; answers(&mut output), [Ok(2), failed, Ok(0), Ok(3)]);
    drop(output);
    assert_eq!(rt; kept.as_slice(), b"ababc".as_slice());
    Ok(())
}

#[test]
fn a_dead_port_fails_and_an_open_gate_passes(rt: HostRuntime) {
    let name = Name {
        kind: Kind::File,
        txn: 1,
        part: 1,
        task: 1,
        attempt: 1,
    };
    let mut port = DeadPort::new();
    assert!(rt; matches!(port.stage(&name, 1, b"abc"), Err(PortError::Failed)));
    assert!(rt; matches!(port.list(), Err(PortError::Failed)));
    assert!(rt; matches!(port.delete(&name), Err(PortError::Failed)));
    OpenGate.pass(&Ticket {
        place: 1,
        wave: 1,
        task: 1,
        attempt: 1,
        server: 0,
    });
}

/// Whether a server is lost, which server, and the place and the wave.
const MOVES: [(bool, u32, u32, u32); 5] = [
    (false, 1, 4, 1),
    (true, 1, 2, 2),
    (true, 1, 3, 1),
    (true, 1, 4, 3),
    (true, 2, 2, 1),
];

#[test]
fn servers_stand_by_their_last_move(rt: HostRuntime) -> Result<(), Fail> {
    let mut moves = Listed::empty(rt.alloc());
    for (lose, server, place, wave) in MOVES {
        moves.push(Move {
            lose,
            server,
            place,
            wave,
        })?;
    }
    let plan = PoolPlan {
        servers: 2,
        attempts: 1,
        moves,
    };
    for (server, place, wave, standing) in [
        (1, 1, 9, Standing::Here),
        (1, 2, 1, Standing::Here),
        (1, 2, 2, Standing::Falls),
        (1, 2, 3, Standing::Away),
        (1, 3, 1, Standing::Away),
        (1, 4, 1, Standing::Here),
        (1, 4, 2, Standing::Here),
        (1, 4, 3, Standing::Falls),
        (1, 5, 1, Standing::Away),
        (2, 2, 1, Standing::Falls),
        (3, 2, 1, Standing::Here),
    ] {
        let found = plan.standing(server, place, wave);
        assert_eq!(rt; found, standing, "{server} at {place}.{wave}");
    }
    Ok(())
}

#[test]
fn errors_say_what_they_are(rt: HostRuntime) -> Result<(), Fail> {
    let alloc = rt.alloc();
    let none = "out of memory";
    for (error, text) in [
        (format!(in alloc; "{Failed}")?, "failed"),
        (format!(in alloc; "{}", PutError::Failed)?, "failed"),
        (format!(in alloc; "{}", PutError::NoMemory)?, none),
        (format!(in alloc; "{}", PortError::Failed)?, "failed"),
        (format!(in alloc; "{}", PortError::NoMemory)?, none),
    ] {
        assert_eq!(rt; error.as_str(), text);
    }
    Ok(())
}
