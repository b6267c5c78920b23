//! A turnstile round a journal in memory, by one thread and by sixteen at once.
ghost use Rattle.std.specs.Prelude.{◌≡◌, ◌+◌, ◌<◌, ◌≤◌, All, IfOk, vec_len};
ghost use Rattle.turnstile.specs.Passes.{turns_left, turns_taken};
ghost use Rattle.sharing_tests.specs.Writers.{HasSessionsFrom, IsNewWriter, IsOrEndsIn, IsResting};
ghost use Rattle.sharing_tests.specs.Writers.{IsWriter, all_turns};

use lake_values::NoMemory;
use std::alloc::Global;
use std::sync::Wait;
use std::test::Fail;
use std::thread;
use std::thread::Threads;
use turnstile::{Chronicled, Pass, Turnstile};

const WRITERS: u32 = 16;

const TURNS: u32 = 1_000;

const ALL_TURNS: u64 = 16_000;

/// What a turn adds.
#[derive(Clone, Copy, PartialEq, Eq, Debug)]
pub struct Line {
    pub session: u32,
    pub turn: u32,
}

/// Lines in memory. No room is reserved.
#[derive(Drop)]
pub struct Journal {
    pub lines: Vec<Line>,
}

impl Chronicled for Journal {
    type Entry = Line;

    ghost use Rattle.sharing_tests.specs.Writers.{no_room};

    ghost entries = { λ j. j.lines.items };

    ghost session = { λ e. e.session };

    ghost has_room = { no_room };

    fn length(&self) -> u64 {
        self.lines.len() as u64
    }
}

/// A thread that writes a line in each of its turns.
#[derive(Drop)]
pub struct Writer {
    pub pass: Pass<Journal>,
    pub session: u32,
    /// Where its lines stand.
    pub places: Vec<usize>,
}

// Where memory runs out, the journal stays as it is.
fn append(journal: &mut Journal, line: Line)
    ensures { IsOrEndsIn journal.old.lines.items line journal.new.lines.items }
{
    let _ = journal.lines.push(line);
}

fn write_line(rt: &impl Wait, turnstile: &Turnstile<Journal>, writer: &mut Writer, turn: u32)
    requires writer { IsWriter turnstile.now writer.old.pass writer.old.session }
    requires left { 0 < turns_left writer.old.pass }
    ensures writer { IsWriter turnstile.now writer.new.pass writer.new.session }
    ensures left { turns_left writer.new.pass + 1 ≡ turns_left writer.old.pass }
{
    let session = writer.session;
    let mut journal = turnstile.enter(rt, &mut writer.pass);
    let place = journal.lines.len();
    append(&mut journal, Line { session, turn });
    turnstile.leave(&mut writer.pass, journal);
    let _ = writer.places.push(place);
}

fn write(rt: &impl Wait, turnstile: &Turnstile<Journal>, writer: &mut Writer)
    requires { IsNewWriter turnstile.now writer.old.pass writer.old.session }
    ensures { IsWriter turnstile.now writer.new.pass writer.new.session }
{
    for turn in 0..TURNS {
        write_line(rt, turnstile, writer, turn);
    }
}

fn write_all<R: Threads + Wait + Sync>(
    rt: &R,
    turnstile: &Turnstile<Journal>,
    writers: &mut [Writer],
)
    requires { All (λ w. IsNewWriter turnstile.now w.pass w.session) writers.old }
    ensures { All (λ w. IsWriter turnstile.now w.pass w.session) writers.new }
{
    thread::for_each_mut(
        rt,
        writers,
        WRITERS as usize,
        &|_, writer| { write(rt, turnstile, writer) },
    );
}

fn new_writer(
    alloc: Global,
    turnstile: &Turnstile<Journal>,
    pass: &mut Pass<Journal>,
    session: u32,
) -> Writer
    requires pass { IsResting turnstile.now pass.old }
    requires left { 1000 ≤ turns_left pass.old }
    requires session { HasSessionsFrom session pass.old }
    requires number { session ≤ 16 }
    ensures pass { IsResting turnstile.now pass.new }
    ensures left { turns_left pass.new + 1000 ≡ turns_left pass.old }
    ensures taken { turns_taken pass.new ≡ turns_taken pass.old }
    ensures sessions { HasSessionsFrom (session + 1) pass.new }
    ensures writer { IsNewWriter turnstile.now result.pass result.session }
{
    let pass = turnstile.split(pass, TURNS as u64, session);
    let places = Vec::new(alloc);
    Writer {
        pass,
        session,
        places,
    }
}

/// A writer for each session, which together have all turns.
fn writers(
    alloc: Global,
    turnstile: &Turnstile<Journal>,
    pass: &mut Pass<Journal>,
) -> Result<Vec<Writer>, NoMemory>
    requires pass { IsResting turnstile.now pass.old }
    requires left { (turns_left pass.old ≡ 16000) × (turns_taken pass.old ≡ 0) }
    requires sessions { HasSessionsFrom 1 pass.old }
    ensures pass { IfOk result (λ _. IsResting turnstile.now pass.new) }
    ensures turns { IfOk result (λ _. all_turns pass.new ≡ 0) }
    ensures writers { IfOk result
        (λ v. All (λ w. IsNewWriter turnstile.now w.pass w.session) v.items) }
    ensures count { IfOk result (λ v. vec_len v ≡ 16) }
{
    let mut writers = Vec::new(alloc);
    for session in 1..WRITERS + 1 {
        writers.push(new_writer(alloc, turnstile, pass, session))?;
    }
    Ok(writers)
}

fn take_in(turnstile: &Turnstile<Journal>, pass: &mut Pass<Journal>, writer: Writer) -> Vec<usize>
    requires pass { IsResting turnstile.now pass.old }
    requires writer { IsWriter turnstile.now writer.pass writer.session }
    ensures pass { IsResting turnstile.now pass.new }
    ensures turns { all_turns pass.new ≡ all_turns pass.old + 1000 }
{
    turnstile.meet(pass, writer.pass);
    writer.places
}

/// Takes the passes of all writers in, and gives the places of their lines.
fn gather(
    alloc: Global,
    turnstile: &Turnstile<Journal>,
    pass: &mut Pass<Journal>,
    writers: Vec<Writer>,
) -> Result<Vec<Vec<usize>>, NoMemory>
    requires pass { IsResting turnstile.now pass.old }
    requires turns { all_turns pass.old ≡ 0 }
    requires writers { All (λ w. IsWriter turnstile.now w.pass w.session) writers.items }
    requires count { vec_len writers ≡ 16 }
    ensures pass { IfOk result (λ _. IsResting turnstile.now pass.new) }
    ensures turns { IfOk result (λ _. all_turns pass.new ≡ 16000) }
{
    let mut places = Vec::new(alloc);
    for writer in writers {
        places.push(take_in(turnstile, pass, writer))?;
    }
    Ok(places)
}

fn line_at(journal: &Journal, places: &[Vec<usize>], writer: u32, turn: u32) -> Option<Line> {
    let places = places.get(writer as usize)?;
    let place = places.get(turn as usize)?;
    journal.lines.get(*place).copied()
}

#[test]
fn each_line_stands_once_at_its_place(rt: HostRuntime) -> Result<(), Fail> {
    let lines = Vec::new(rt.alloc());
    let journal = Journal { lines };
    let Ok((turnstile, mut pass)) = Turnstile::new(rt.alloc(), journal, ALL_TURNS) else {
        return Err(NoMemory)?;
    };
    let mut writers = writers(rt.alloc(), &turnstile, &mut pass)?;
    write_all(&rt, &turnstile, writers.as_mut_slice());
    let places = gather(rt.alloc(), &turnstile, &mut pass, writers)?;
    let journal = turnstile.close(pass);
    assert_eq!(rt; journal.lines.len(), ALL_TURNS as usize);
    for index in 0..WRITERS {
        for turn in 0..TURNS {
            let session = index + 1;
            let line = line_at(&journal, places.as_slice(), index, turn);
            assert_eq!(rt; line, Some(Line { session, turn }));
        }
    }
    Ok(())
}
