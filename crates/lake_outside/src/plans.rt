ghost use Rattle.std.specs.Prelude.{◌≡◌, true, false};
ghost use Rattle.lake_outside.specs.Plans.{is_before, later, is_move, is_move_at, is_move_before, last_before, moves_at, is_away_after, standing_of};

use lake_values::Listed;

/// A server is lost, or joins again, at a wave of the statement at a place.
#[derive(Clone, Copy, Debug, PartialEq, Eq)]
pub struct Move {
    /// Whether the server is lost; else it joins.
    pub lose: bool,
    pub server: u32,
    /// The place of the statement in the script.
    pub place: u32,
    pub wave: u32,
}

/// The moves of a plan, in any order.
pub type Moves = Listed<Move>;

/// The servers of a run.
#[derive(Debug, Drop)]
pub struct PoolPlan {
    /// How many servers there are.
    pub servers: u32,
    /// How many attempts of a task begin at once.
    pub attempts: u32,
    /// When servers are lost, and when they join again.
    pub moves: Moves,
}

/// Where a server is at a wave.
#[derive(Clone, Copy, Debug, PartialEq, Eq)]
pub enum Standing {
    Here,
    Away,
    /// It is here, and lost in this wave.
    Falls,
}

impl PoolPlan {
    /// Where a server stands at a wave of the statement at a place: by its moves there and before, the
    /// statement first, whatever their order in the list. Where a loss and a join share a wave, the join
    /// counts.
    pub fn standing(&self, server: u32, place: u32, wave: u32) -> Standing
        ensures { result ≡ standing_of self.now.moves server (place, wave) }
    {
        let at = (place, wave);
        if self.moves_at(false, server, at) {
            return Standing::Here;
        }
        let away = self.is_away_before(server, at);
        if self.moves_at(true, server, at) && !away {
            return Standing::Falls;
        }
        if away { Standing::Away } else { Standing::Here }
    }

    fn moves_at(&self, lose: bool, server: u32, at: (u32, u32)) -> bool
        ensures { result ≡ moves_at lose server at self.now.moves }
    {
        self.moves
            .as_slice()
            .iter()
            .any(|found| found.is_move_at(lose, server, at))
    }

    fn is_away_before(&self, server: u32, at: (u32, u32)) -> bool
        ensures { result ≡ is_away_after (last_before true server at self.now.moves)
            (last_before false server at self.now.moves) }
    {
        match self.last_before(true, server, at) {
            None => false,
            Some(loss) => match self.last_before(false, server, at) {
                None => true,
                Some(join) => is_before(join, loss),
            },
        }
    }

    fn last_before(&self, lose: bool, server: u32, at: (u32, u32)) -> Option<(u32, u32)>
        ensures { result ≡ last_before lose server at self.now.moves }
    {
        let mut last = None;
        for found in self.moves.as_slice() {
            if found.is_move_before(lose, server, at) {
                last = Some(later((found.place, found.wave), last));
            }
        }
        last
    }
}

impl Move {
    fn is_move(&self, lose: bool, server: u32) -> bool
        ensures { result ≡ is_move lose server self.now }
    {
        self.lose == lose && self.server == server
    }

    fn is_move_at(&self, lose: bool, server: u32, at: (u32, u32)) -> bool
        ensures { result ≡ is_move_at lose server at self.now }
    {
        self.is_move(lose, server) && self.place == at.0 && self.wave == at.1
    }

    fn is_move_before(&self, lose: bool, server: u32, at: (u32, u32)) -> bool
        ensures { result ≡ is_move_before lose server at self.now }
    {
        self.is_move(lose, server) && is_before((self.place, self.wave), at)
    }
}

fn is_before(point: (u32, u32), other: (u32, u32)) -> bool
    ensures { result ≡ is_before point other }
{
    point.0 < other.0 || (point.0 == other.0 && point.1 < other.1)
}

fn later(point: (u32, u32), other: Option<(u32, u32)>) -> (u32, u32)
    ensures { result ≡ later point other }
{
    match other {
        Some(other) if is_before(point, other) => other,
        _ => point,
    }
}
