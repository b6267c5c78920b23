//! The steps of which statements are made: each adds one entry to the lake.

ghost use Rattle.std.specs.Prelude.{◌≡◌, ◌<◌, ◌^◌, false, true, Some, IsSome, length, IfOk, OnOk, OnErr, Ok, Err};
ghost use Rattle.lake_core.specs.Facts as facts;
ghost use Rattle.lake_core.specs.Lakes.{HasPart, IsStatementEffect, is_reserved, state_of};
ghost use Rattle.sql_model.specs.StatementKinds.{reads_rows};
ghost use Rattle.sql_model.specs.Form.{is_form};
ghost use Rattle.lake_model.specs.Refusals.{result_of};
ghost use Rattle.lake_model.specs.State.{transaction};
ghost use Rattle.lake_model.specs.Text.{committed_reply};
ghost use Rattle.lake_session.specs.Effects.{IfRefused, effect_seen};
ghost use Rattle.lake_session.specs.Runs.{IsOutcome, Records, ended_reply, outcome, reply_said};

use crate::effects::{Effect, EffectFault, effect_of_statement};
use lake_core::{LakeState, Who};
use lake_outside::Port;
use lake_values::NoMemory;
use sql_model::{Reply, Statement};
use std::alloc::Global;

/// What a statement that reads or changes rows answered in its session's transaction.
#[derive(Debug, Drop)]
pub enum Answered {
    Ran(Reply),
    Refused(Reply),
}

impl Answered {
    pub fn reply(self) -> Reply
        ensures { result ≡ reply_said self }
    {
        match self {
            Answered::Ran(reply) | Answered::Refused(reply) => reply,
        }
    }
}

/// What a statement does over what its session sees, as the next part of its transaction.
pub fn effect_in_transaction<P: Port>(
    alloc: Global,
    lake: &LakeState<P>,
    session: u32,
    statement: &Statement,
) -> Result<Effect, EffectFault>
    requires form { is_form statement.now ≡ true }
    requires rows { reads_rows statement.now ≡ true }
    requires running { IsSome (transaction (state_of lake.now) session) }
    requires part { HasPart (state_of lake.now) session }
    ensures form { IfOk result
        (λ made. IsStatementEffect (state_of lake.now) session (effect_seen made)) }
    ensures result { IfOk result
        (λ made. result_of (state_of lake.now) session statement.now ≡ Ok (effect_seen made)) }
    ensures refused { IfRefused result
        (λ cause. result_of (state_of lake.now) session statement.now ≡ Err cause) }
{
    let part = lake.transaction(session).unwrap().parts + 1;
    effect_of_statement(alloc, statement, &lake.lend(session), part)
}

/// Runs a statement that reads or changes rows in its session's transaction.
pub fn run_inside<P: Port>(
    alloc: Global,
    lake: &mut LakeState<P>,
    who: Who,
    statement: &Statement,
) -> Result<Answered, NoMemory>
    requires few { length lake.old.entries < 2 ^ 61 }
    requires form { is_form statement.now ≡ true }
    requires rows { reads_rows statement.now ≡ true }
    requires running { IsSome (transaction (state_of lake.old) who.session) }
    requires part { HasPart (state_of lake.old) who.session }
    requires unreserved { is_reserved lake.old who.session ≡ false }
    ensures entry { OnOk result (Records lake.old lake.new who (outcome (result_of (state_of lake.old) who.session statement.now))) }
    ensures reply { IfOk result (λ said. IsOutcome said (result_of (state_of lake.old) who.session statement.now)) }
    ensures err { OnErr result (lake.new ≡ lake.old) }
{
    match effect_in_transaction(alloc, lake, who.session, statement) {
        Ok(Effect { reply, change }) => Ok(Answered::Ran(lake.ran(alloc, who, reply, change)?)),
        Err(EffectFault::Refused(cause)) => Ok(Answered::Refused(lake.refuse(who, cause)?)),
        Err(EffectFault::NoMemory) => Err(NoMemory),
    }
}

/// Ends the session's transaction: it commits what it changed, if something.
pub fn end<P: Port>(alloc: Global, lake: &mut LakeState<P>, who: Who) -> Result<Reply, NoMemory>
    requires few { length lake.old.entries < 2 ^ 61 }
    requires running { IsSome (transaction (state_of lake.old) who.session) }
    ensures entry { OnOk result (Records lake.old lake.new who (facts.commitment (state_of lake.old) who.session)) }
    ensures reply { IfOk result (λ reply. reply ≡ facts.answer (facts.commitment (state_of lake.old) who.session)) }
    ensures err { OnErr result (lake.new ≡ lake.old) }
{
    lake.reserve(alloc, who.session)?;
    Ok(lake.commit(alloc, who))
}

/// What a statement that stands alone answers, which ran and whose transaction ended so.
pub fn ended_reply(ran: Reply, end: Reply) -> Reply
    ensures { result ≡ ended_reply ran end }
{
    match end {
        Reply::Committed { seq } => committed_reply(ran, seq),
        Reply::Conflict { seq } => Reply::Conflict { seq },
        _ => ran,
    }
}

/// The reply of a statement whose change became a version.
fn committed_reply(ran: Reply, seq: u64) -> Reply
    ensures { result ≡ committed_reply seq (Some ran) }
{
    match ran {
        Reply::Wrote { verb, count, .. } => Reply::Wrote {
            verb,
            count,
            seq: Some(seq),
        },
        _ => Reply::Committed { seq },
    }
}
