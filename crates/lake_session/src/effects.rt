//! What a statement answers and changes over what its session sees.

ghost use Rattle.std.specs.Prelude.{◌≡◌, ℕ, [], ◌∷◌, ◌++◌, true, false, Ok, Err, length, map, IfOk, OnOk, IsErrOf};
ghost use Rattle.sql_model.specs.declared.bound.Bound.TheVariants as bound;
ghost use Rattle.sql_model.specs.declared.replies.Verb.TheVariants as verb;
ghost use Rattle.sql_model.specs.Changes.{addition, change_of, no_change};
ghost use Rattle.sql_model.specs.Form.{is_form};
ghost use Rattle.sql_model.specs.StatementKinds.{reads_rows};
ghost use Rattle.sql_model.specs.Query as spec;
ghost use Rattle.sql_model.specs.Versions.{rows_of};
ghost use Rattle.sql_model.specs.Writing as writing;
ghost use Rattle.row_evaluation.specs.Conditions.{AreGuards};
ghost use Rattle.table_history.specs.Stores.{marked_of};
ghost use Rattle.plain_query.specs.Databases.{IsEvaluable};
ghost use Rattle.lake_session.specs.Effects.{IfRefused, IsEffectOf, effect_seen};
ghost use Rattle.row_evaluation.specs.declared.rows.EvaluationFault.TheVariants as fault;

use crate::lending::{slices_of, tables_lent};
use lake_core::Lent;
use lake_values::{Listed, NoMemory, Row, Rows, Text};
use plain_query::{QueryFault, plain};
use row_evaluation::{EvaluationFault, evaluated, is_matched};
use sql_binder::{BindFault, bind};
use sql_model::{
    Added, AddedList, Bound, BoundExpr, Change, MarkedRow, Query, Refusal, Reply, Statement, Verb,
    in_mark_order, in_row_order,
};
use std::alloc::{AllocError, AllocFailed, Global};
use table_history::ViewRow;

/// What a statement answers, and what it changes.
#[derive(Debug, Drop)]
pub struct Effect {
    pub reply: Reply,
    pub change: Change,
}

/// Why a statement has no effect.
#[derive(Debug, Drop)]
pub enum EffectFault {
    Refused(Refusal),
    NoMemory,
}

impl From<NoMemory> for EffectFault {
    ghost use Rattle.std.specs.Prelude.{◌≡◌};
    ghost use Rattle.lake_session.specs.declared.effects.EffectFault.TheVariants.{NoMemory as OutOfMemory};

    ghost from_gives = { λ _ fault. fault ≡ OutOfMemory };

    fn from(_refused: NoMemory) -> EffectFault {
        EffectFault::NoMemory
    }
}

impl From<AllocError> for EffectFault {
    ghost use Rattle.std.specs.Prelude.{◌≡◌};
    ghost use Rattle.lake_session.specs.declared.effects.EffectFault.TheVariants.{NoMemory as OutOfMemory};

    ghost from_gives = { λ _ fault. fault ≡ OutOfMemory };

    fn from(_refused: AllocError) -> EffectFault {
        EffectFault::NoMemory
    }
}

impl From<EvaluationFault> for EffectFault {
    ghost use Rattle.std.specs.Prelude.{◌≡◌};
    ghost use Rattle.lake_session.specs.Effects.{of_evaluation};

    ghost from_gives = { λ fault effect. effect ≡ of_evaluation fault };

    fn from(fault: EvaluationFault) -> EffectFault {
        match fault {
            EvaluationFault::Overflow => EffectFault::Refused(Refusal::Arith),
            EvaluationFault::NoMemory => EffectFault::NoMemory,
        }
    }
}

impl From<BindFault> for EffectFault {
    ghost use Rattle.std.specs.Prelude.{◌≡◌};
    ghost use Rattle.lake_session.specs.Effects.{of_binding};

    ghost from_gives = { λ fault effect. effect ≡ of_binding fault };

    fn from(fault: BindFault) -> EffectFault {
        match fault {
            BindFault::Refused(cause) => EffectFault::Refused(cause),
            BindFault::NoMemory => EffectFault::NoMemory,
        }
    }
}

/// What a statement does over what its session sees, as this part of a transaction.
pub fn effect_of_statement(
    alloc: Global,
    statement: &Statement,
    lent: &Lent<'_>,
    part: u32,
) -> Result<Effect, EffectFault>
    requires form { is_form statement.now ≡ true }
    requires rows { reads_rows statement.now ≡ true }
    ensures form { IfOk result (λ made. IsEffectOf statement.now lent.now part (effect_seen made)) }
    ensures result { IfOk result
        (λ made. writing.result_over lent.now part statement.now ≡ Ok (effect_seen made)) }
    ensures refused { IfRefused result
        (λ refusal. writing.result_over lent.now part statement.now ≡ Err refusal) }
{
    let schemas = lent.schemas(alloc)?;
    let bound = bind(alloc, statement, &schemas)?;
    effect_of(alloc, bound, lent, part)
}

/// What a bound statement does over what its session sees, as this part of a transaction.
fn effect_of(alloc: Global, bound: Bound, lent: &Lent<'_>, part: u32) -> Result<Effect, EffectFault>
    requires { IsEvaluable bound }
    ensures effect { IfOk result
        (λ made. writing.effect_of bound lent.now part ≡ Ok (effect_seen made)) }
    ensures refused { IfRefused result
        (λ refusal. writing.effect_of bound lent.now part ≡ Err refusal) }
{
    match bound {
        Bound::Select(query) => queried(alloc, &query, lent),
        Bound::Insert { table, rows, .. } => Ok(inserted(alloc, &table, rows, part)?),
        Bound::Update {
            table,
            guards,
            computed,
            items,
            ..
        } => updated(
            alloc,
            &table,
            guards.as_slice(),
            computed.as_slice(),
            items.as_slice(),
            lent,
            part,
        ),
        Bound::Delete {
            table,
            guards,
            computed,
        } => deleted(
            alloc,
            &table,
            guards.as_slice(),
            computed.as_slice(),
            lent,
            part,
        ),
        Bound::Named { .. } => Ok(nothing(alloc)),
    }
}

/// The rows that a query answers.
fn queried(alloc: Global, query: &Query, lent: &Lent<'_>) -> Result<Effect, EffectFault>
    requires { IsEvaluable (bound.Select query.now) }
    ensures effect { IfOk result (λ made. writing.queried (spec.plain query.now (rows_of lent.now)) ≡ Ok (effect_seen made)) }
    ensures refused { IfRefused result (λ refusal. writing.queried (spec.plain query.now (rows_of lent.now)) ≡ Err refusal) }
{
    let tables = tables_lent(alloc, query.tables.as_slice(), lent)?;
    let slices = slices_of(alloc, tables.as_slice())?;
    match plain(alloc, query, slices.as_slice()) {
        Ok(rows) => Ok(Effect {
            reply: Reply::Rows(rows),
            change: no_change(alloc),
        }),
        Err(QueryFault::TooManyRows) => Err(EffectFault::Refused(Refusal::TooManyRows)),
        Err(QueryFault::Arith) => Err(EffectFault::Refused(Refusal::Arith)),
        Err(QueryFault::NoMemory) => Err(EffectFault::NoMemory),
    }
}

fn no_change(alloc: Global) -> Change
    ensures { result ≡ no_change }
{
    Change {
        removed: Listed::empty(alloc),
        added: Listed::empty(alloc),
    }
}

fn nothing(alloc: Global) -> Effect
    ensures { effect_seen result ≡ (Reply.Ended, no_change) }
{
    Effect {
        reply: Reply::Ended,
        change: no_change(alloc),
    }
}

fn wrote(verb: Verb, count: usize) -> Reply
    ensures { result ≡ writing.wrote verb count }
{
    Reply::Wrote {
        verb,
        count: count as u64,
        seq: None,
    }
}

/// The rows are moved into the change, not copied.
fn inserted(alloc: Global, table: &Text, rows: Rows, part: u32) -> Result<Effect, NoMemory>
    ensures { IfOk result (λ made. effect_seen made
        ≡ (writing.wrote verb.Inserted (length rows), change_of table.now part [] rows)) }
{
    let rows = rows.into_rows();
    let reply = wrote(Verb::Inserted, rows.len());
    let change = change_of(alloc, table, part, Vec::new(alloc), rows)?;
    Ok(Effect { reply, change })
}

fn deleted(
    alloc: Global,
    table: &Text,
    guards: &[BoundExpr],
    computed: &[BoundExpr],
    lent: &Lent<'_>,
    part: u32,
) -> Result<Effect, EffectFault>
    requires { AreGuards guards.now }
    ensures effect { IfOk result (λ made. writing.effect_of (bound.Delete table.now guards.now computed.now) lent.now part ≡ Ok (effect_seen made)) }
    ensures refused { IfRefused result (λ refusal. writing.effect_of (bound.Delete table.now guards.now computed.now) lent.now part ≡ Err refusal) }
{
    let rows = lent.rows(alloc, table)?;
    let old = matched(alloc, table, guards, computed, rows.as_slice())?;
    let reply = wrote(Verb::Deleted, old.len());
    let change = change_of(alloc, table, part, old, Vec::new(alloc))?;
    Ok(Effect { reply, change })
}

fn updated(
    alloc: Global,
    table: &Text,
    guards: &[BoundExpr],
    computed: &[BoundExpr],
    items: &[BoundExpr],
    lent: &Lent<'_>,
    part: u32,
) -> Result<Effect, EffectFault>
    requires { AreGuards guards.now }
    ensures effect { IfOk result (λ made. (column : ℕ) → writing.effect_of (bound.Update table.now guards.now computed.now items.now column) lent.now part ≡ Ok (effect_seen made)) }
    ensures refused { IfRefused result (λ refusal. (column : ℕ) → writing.effect_of (bound.Update table.now guards.now computed.now items.now column) lent.now part ≡ Err refusal) }
{
    let rows = lent.rows(alloc, table)?;
    let old = matched(alloc, table, guards, computed, rows.as_slice())?;
    let new = new_rows(alloc, items, old.as_slice())?;
    let reply = wrote(Verb::Updated, old.len());
    let change = change_of(alloc, table, part, old, new)?;
    Ok(Effect { reply, change })
}

/// The rows of a table that a condition matches, with their marks.
fn matched(
    alloc: Global,
    table: &Text,
    guards: &[BoundExpr],
    computed: &[BoundExpr],
    rows: &[ViewRow<'_>],
) -> Result<Vec<MarkedRow>, EvaluationFault>
    requires { AreGuards guards.now }
    ensures rows { IfOk result (λ old. old.items ≡ writing.matched guards.now computed.now (map (marked_of table.now) rows.now)) }
    ensures fits { IfOk result (λ _. writing.conditions_fit guards.now computed.now (map (marked_of table.now) rows.now) ≡ true) }
    ensures overflow { IsErrOf result fault.Overflow → writing.conditions_fit guards.now computed.now (map (marked_of table.now) rows.now) ≡ false }
{
    let mut old = Vec::new(alloc);
    for row in rows {
        if is_matched(guards, computed, row)? {
            push_marked(alloc, table, row, &mut old)?;
        }
    }
    Ok(old)
}

fn push_marked(
    alloc: Global,
    table: &Text,
    row: &ViewRow<'_>,
    out: &mut Vec<MarkedRow>,
) -> Result<(), NoMemory>
    ensures { OnOk result (out.new.items ≡ out.old.items ++ marked_of table.now row.now ∷ []) }
{
    out.push(row.marked(alloc, table)?)?;
    Ok(())
}

/// The rows as they are after their update.
fn new_rows(
    alloc: Global,
    items: &[BoundExpr],
    old: &[MarkedRow],
) -> Result<Vec<Row>, EvaluationFault>
    ensures rows { IfOk result (λ new. new.items ≡ writing.updated items.now old.now) }
    ensures fits { IfOk result (λ _. writing.values_fit items.now old.now ≡ true) }
    ensures overflow { IsErrOf result fault.Overflow → writing.values_fit items.now old.now ≡ false }
{
    let mut new = Vec::with_capacity(alloc, old.len())?;
    for marked in old {
        push_row(&mut new, evaluated(alloc, items, &marked.row)?)?;
    }
    Ok(new)
}

fn push_row(rows: &mut Vec<Row>, row: Row) -> Result<(), NoMemory>
    ensures { OnOk result (rows.new.items ≡ rows.old.items ++ row ∷ []) }
{
    rows.push(row)?;
    Ok(())
}

/// What a statement changes that removes these rows and adds those as this part of its transaction.
fn change_of(
    alloc: Global,
    table: &Text,
    part: u32,
    removed: Vec<MarkedRow>,
    added: Vec<Row>,
) -> Result<Change, NoMemory>
    ensures { IfOk result (λ change. change ≡ change_of table.now part removed.items added.items) }
{
    let removed = in_mark_order(removed)?;
    let added = addition(alloc, table, part, added)?;
    Ok(Change { removed, added })
}

/// The rows that a part of a transaction adds, in row order; no rows are no addition.
fn addition(alloc: Global, table: &Text, part: u32, rows: Vec<Row>) -> Result<AddedList, NoMemory>
    ensures { IfOk result (λ added. added ≡ addition table.now part rows.items) }
{
    if rows.is_empty() {
        return Ok(Listed::empty(alloc));
    }
    let table = table.copy()?;
    let rows = in_row_order(rows)?;
    Ok(Listed::from_list(vec![in alloc; Added { table, part, rows }]?))
}
