ghost use Rattle.std.specs.Prelude.{◌≡◌, ◌≤◌, true, false, IfOk, OnOk, OnErr};
ghost use Rattle.sql_model.specs.Form.{is_form};
ghost use Rattle.sql_model.specs.ScriptStatements.{is_script_statement};
ghost use Rattle.lake_session.specs.Runs.{IsBegunBy, Leaves, MayRun, Ran};

use crate::running::run;
use lake_core::{LakeState, Who};
use lake_outside::Port;
use lake_values::NoMemory;
use sql_model::{Reply, Statement};
use std::alloc::Global;
use std::marker::Model;

/// A session: it runs its statements one after another over a lake that is lent to it.
///
/// After want of memory it is spent, and runs no further statement: what its last one recorded
/// stands in the lake, and a transaction that it began may be open.
#[derive(Drop)]
pub struct Session<P: Port> {
    number: u32,
    port: P,
    spent: bool,
}

impl<P: Port> Model for Session<P> {
    ghost use Rattle.std.specs.Prelude.{◌≤◌};
    ghost use Rattle.lake_session.specs.Sessions.{SessionSeen, session_code};

    ghost Value = { SessionSeen P };

    ghost coded = { session_code P.code };

    ghost view = { λ s. record { number = s.number; port = s.port; spent = s.spent } };

    ghost invariant = { λ s. (1 ≤ s.number) × (s.number ≤ 16) };
}

impl<P: Port> Session<P> {
    /// The session with this number, which reaches the store through the port.
    pub fn new(number: u32, port: P) -> Session<P>
        requires some { 1 ≤ number }
        requires at_most { number ≤ 16 }
        ensures number { result.number ≡ number }
        ensures port { result.port ≡ port }
        ensures unspent { result.spent ≡ false }
    {
        Session {
            number,
            port,
            spent: false,
        }
    }

    /// Whether the session ran out of memory.
    pub fn spent(&self) -> bool
        ensures { result ≡ self.now.spent }
    {
        self.spent
    }

    /// Gives the port back.
    pub fn port(self) -> P
        ensures { result ≡ self.port }
    {
        self.port
    }

    /// Runs a statement of the session at its place in the script, and answers its reply.
    ///
    /// A statement outside a transaction that reads or changes rows begins one for itself, and ends it.
    pub fn execute(
        &mut self,
        alloc: Global,
        lake: &mut LakeState<P>,
        place: u32,
        statement: &Statement,
    ) -> Result<Reply, NoMemory>
        requires unspent { self.old.spent ≡ false }
        requires form { is_form statement.now ≡ true }
        requires kind { is_script_statement statement.now ≡ true }
        requires session { MayRun lake.old self.old.number }
        ensures ran { IfOk result (λ reply. Ran lake.old lake.new (record {
          place = place;
          session = self.old.number;
          statement = statement.now;
        }) reply) }
        ensures begun { OnErr result (IsBegunBy lake.old.entries lake.new.entries (record {
          place = place;
          session = self.old.number;
          statement = statement.now;
        })) }
        ensures leaves { Leaves lake.old lake.new self.old.number }
        ensures unspent { OnOk result (self.new ≡ self.old) }
        ensures spent { OnErr result (self.new ≡ record self.old { spent = true }) }
    {
        let who = Who {
            session: self.number,
            place,
        };
        let outcome = run(alloc, lake, who, statement);
        self.spent = outcome.is_err();
        outcome
    }
}
