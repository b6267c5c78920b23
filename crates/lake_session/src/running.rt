//! How each kind of statement runs.

ghost use Rattle.std.specs.Prelude.{◌≡◌, true, IfOk, IsNone, OnErr};
ghost use Rattle.lake_core.specs.Lakes.{state_of};
ghost use Rattle.sql_model.specs.StatementKinds.{reads_rows};
ghost use Rattle.sql_model.specs.Form.{is_form};
ghost use Rattle.lake_model.specs.State.{transaction};
ghost use Rattle.sql_model.specs.declared.statements.Statement.TheVariants as kind;
ghost use Rattle.lake_session.specs.Runs.{IsBegunBy, Leaves, MayRun, Ran, numbered};
ghost use Rattle.sql_model.specs.ScriptStatements.{is_script_statement};

use crate::creating::{first_refusal, schema_of};
use crate::steps::{Answered, end, ended_reply, run_inside};
use lake_core::{LakeState, Who};
use lake_outside::Port;
use lake_values::{Columns, NoMemory, Text};
use sql_binder::{BindFault, bind};
use sql_model::{Refusal, Reply, Schemas, Statement};
use std::alloc::Global;

/// Runs a session's statement, and answers its reply.
pub fn run<P: Port>(
    alloc: Global,
    lake: &mut LakeState<P>,
    who: Who,
    statement: &Statement,
) -> Result<Reply, NoMemory>
    requires form { is_form statement.now ≡ true }
    requires kind { is_script_statement statement.now ≡ true }
    requires session { MayRun lake.old who.session }
    ensures ran { IfOk result
        (λ reply. Ran lake.old lake.new (numbered who statement.now) reply) }
    ensures begun { OnErr result
        (IsBegunBy lake.old.entries lake.new.entries (numbered who statement.now)) }
    ensures leaves { Leaves lake.old lake.new who.session }
{
    match statement {
        Statement::Create {
            table,
            columns,
            distribution,
        } => create(alloc, lake, who, statement, table, columns, distribution),
        Statement::Begin => begin(alloc, lake, who),
        Statement::Commit => commit(alloc, lake, who),
        Statement::RollBack => roll_back(alloc, lake, who),
        Statement::Insert { .. }
        | Statement::Select(_)
        | Statement::Update { .. }
        | Statement::Delete { .. } => run_rows(alloc, lake, who, statement),
        Statement::Compact { .. } | Statement::Checkpoint { .. } | Statement::Collect { .. } =>
            unreachable!(),
    }
}

fn begin<P: Port>(alloc: Global, lake: &mut LakeState<P>, who: Who) -> Result<Reply, NoMemory>
    requires { MayRun lake.old who.session }
    ensures ran { IfOk result (λ reply. Ran lake.old lake.new (numbered who kind.Begin) reply) }
    ensures err { OnErr result (lake.new ≡ lake.old) }
    ensures leaves { Leaves lake.old lake.new who.session }
{
    lake.begin(alloc, who, true)
}

fn commit<P: Port>(alloc: Global, lake: &mut LakeState<P>, who: Who) -> Result<Reply, NoMemory>
    requires { MayRun lake.old who.session }
    ensures ran { IfOk result (λ reply. Ran lake.old lake.new (numbered who kind.Commit) reply) }
    ensures err { OnErr result (lake.new ≡ lake.old) }
    ensures leaves { Leaves lake.old lake.new who.session }
{
    match lake.transaction(who.session) {
        Some(_) => end(alloc, lake, who),
        None => lake.refuse(who, Refusal::NoTransaction),
    }
}

fn roll_back<P: Port>(alloc: Global, lake: &mut LakeState<P>, who: Who) -> Result<Reply, NoMemory>
    requires { MayRun lake.old who.session }
    ensures ran { IfOk result (λ reply. Ran lake.old lake.new (numbered who kind.RollBack) reply) }
    ensures err { OnErr result (lake.new ≡ lake.old) }
    ensures leaves { Leaves lake.old lake.new who.session }
{
    if lake.transaction(who.session).is_none() {
        return lake.refuse(who, Refusal::NoTransaction);
    }
    lake.reserve(alloc, who.session)?;
    Ok(lake.roll_back(who))
}

fn create<P: Port>(
    alloc: Global,
    lake: &mut LakeState<P>,
    who: Who,
    statement: &Statement,
    table: &Text,
    columns: &Columns,
    distribution: &Option<Text>,
) -> Result<Reply, NoMemory>
    requires form { is_form statement.now ≡ true }
    requires session { MayRun lake.old who.session }
    requires statement { statement.now ≡ kind.Create table.now columns.now distribution.now }
    ensures ran { IfOk result
        (λ reply. Ran lake.old lake.new (numbered who statement.now) reply) }
    ensures err { OnErr result (lake.new ≡ lake.old) }
    ensures leaves { Leaves lake.old lake.new who.session }
{
    // A CREATE is bound by its own columns alone.
    match bind(alloc, statement, &Schemas::empty(alloc)) {
        Ok(_) => {
            let schema = schema_of(alloc, columns, distribution)?;
            lake.create(alloc, who, table, &schema)
        }
        Err(BindFault::Refused(cause)) => {
            let cause = first_refusal(lake, who.session, table, cause)?;
            lake.refuse(who, cause)
        }
        Err(BindFault::NoMemory) => Err(NoMemory),
    }
}

/// Runs a statement that reads or changes rows, outside a transaction in one for itself alone.
fn run_rows<P: Port>(
    alloc: Global,
    lake: &mut LakeState<P>,
    who: Who,
    statement: &Statement,
) -> Result<Reply, NoMemory>
    requires form { is_form statement.now ≡ true }
    requires rows { reads_rows statement.now ≡ true }
    requires session { MayRun lake.old who.session }
    ensures ran { IfOk result
        (λ reply. Ran lake.old lake.new (numbered who statement.now) reply) }
    ensures begun { OnErr result
        (IsBegunBy lake.old.entries lake.new.entries (numbered who statement.now)) }
    ensures leaves { Leaves lake.old lake.new who.session }
{
    if lake.transaction(who.session).is_none() {
        return run_alone(alloc, lake, who, statement);
    }
    Ok(run_inside(alloc, lake, who, statement)?.reply())
}

/// Runs a statement that reads or changes rows in a transaction for itself alone.
fn run_alone<P: Port>(
    alloc: Global,
    lake: &mut LakeState<P>,
    who: Who,
    statement: &Statement,
) -> Result<Reply, NoMemory>
    requires form { is_form statement.now ≡ true }
    requires rows { reads_rows statement.now ≡ true }
    requires outside { IsNone (transaction (state_of lake.old) who.session) }
    requires session { MayRun lake.old who.session }
    ensures ran { IfOk result
        (λ reply. Ran lake.old lake.new (numbered who statement.now) reply) }
    ensures begun { OnErr result
        (IsBegunBy lake.old.entries lake.new.entries (numbered who statement.now)) }
    ensures leaves { Leaves lake.old lake.new who.session }
{
    lake.begin(alloc, who, false)?;
    match run_inside(alloc, lake, who, statement)? {
        Answered::Refused(reply) => Ok(reply),
        Answered::Ran(reply) => Ok(ended_reply(reply, end(alloc, lake, who)?)),
    }
}
