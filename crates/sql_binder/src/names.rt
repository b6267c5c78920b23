//! The names of a statement: one walk in the order of the text, which notes the first fault of
//! each kind.

ghost use Rattle.std.specs.Prelude.{◌≡◌, ◌≤◌, length, map, take, OnOk, IsTrue};
ghost use Rattle.std.specs.List.{list_all, list_any};
ghost use Rattle.lake_values.specs.Texts.{same_text};
ghost use Rattle.sql_model.specs.Form.{is_name, is_name_or_none, has_names, are_names, is_pair, is_filter, is_item, is_on, is_set, is_select, IsInForm};
ghost use Rattle.sql_model.specs.Mentions as mention;
ghost use Rattle.sql_model.specs.Scopes.{headings, scope_of};
ghost use Rattle.sql_binder.specs.Noting.{noted, noted_one, noted_given};
ghost use Rattle.sql_binder.specs.Scoping.{IsFrom, statement_scope};

use crate::faults::NameFaults;
use crate::outputs::{output_count, output_named};
use crate::scopes::{joined, named, number_text, printed, schema_named};
use lake_values::{Column, NoMemory, Text};
use sql_model::{
    Agg, Expr, Found, Heading, Item, OrderBy, OrderKey, Ref, RefPairs, Refusal, Schemas, Select,
    Set, SourceRef, Statement,
};
use std::alloc::Global;

fn is_source_among(name: &Text, sources: &[SourceRef]) -> bool
    ensures { result ≡ list_any (same_text name.now) (mention.source_names sources.now) }
{
    for source in sources {
        if *name == source.name {
            return true;
        }
    }
    false
}

fn is_column_among(name: &Text, columns: &[Column]) -> bool
    ensures { result ≡ list_any (same_text name.now) (map (λ c. c.name) columns.now) }
{
    for column in columns {
        if *name == column.name {
            return true;
        }
    }
    false
}

fn is_set_among(name: &Text, sets: &[Set]) -> bool
    ensures { result ≡ list_any (same_text name.now) (map (λ s. s.column) sets.now) }
{
    for set in sets {
        if *name == set.column {
            return true;
        }
    }
    false
}

/// Notes a name that is given, and perhaps given again behind.
fn note_given(name: &Text, is_again: bool, faults: &mut NameFaults) -> Result<(), NoMemory>
    ensures { OnOk result (faults.new ≡ noted_given faults.old name.now is_again) }
{
    if is_again && faults.ambiguous.is_none() {
        faults.ambiguous = Some(Refusal::Ambiguous(name.copy()?));
    }
    Ok(())
}

/// What the names of a statement are looked up in.
#[derive(Drop)]
pub struct Names<'a> {
    pub alloc: Global,
    pub schemas: &'a Schemas,
}

impl Names<'_> {
    fn table(&self, name: &Text, faults: &mut NameFaults) -> Result<(), NoMemory>
        ensures { OnOk result (faults.new ≡ noted_one self.now.schemas.now faults.old
            (mention.table name.now)) }
    {
        if faults.table.is_none() && schema_named(name, self.schemas).is_none() {
            faults.table = Some(Refusal::UnknownTable(name.copy()?));
        }
        Ok(())
    }

    /// A column that is named, perhaps with its table.
    fn column(
        &self,
        scope: &[Heading],
        table: &Option<Text>,
        column: &Text,
        faults: &mut NameFaults,
    ) -> Result<(), NoMemory>
        requires room { length scope.now ≤ 256 }
        requires short_table { IsTrue (is_name_or_none table.now) }
        requires short_column { IsTrue (is_name column.now) }
        ensures { OnOk result (faults.new ≡ noted_one self.now.schemas.now faults.old
            (mention.reference scope.now table.now column.now)) }
    {
        match named(scope, table, column) {
            Found::One(_) => {}
            Found::Absent => {
                if faults.column.is_none() {
                    let name = printed(self.alloc, table, column)?;
                    faults.column = Some(Refusal::UnknownColumn(name));
                }
            }
            Found::Several => {
                if faults.ambiguous.is_none() {
                    let name = printed(self.alloc, table, column)?;
                    faults.ambiguous = Some(Refusal::Ambiguous(name));
                }
            }
        }
        Ok(())
    }

    fn reference(
        &self,
        scope: &[Heading],
        reference: &Ref,
        faults: &mut NameFaults,
    ) -> Result<(), NoMemory>
        requires room { length scope.now ≤ 256 }
        requires form { IsTrue (are_names reference.now) }
        ensures { OnOk result (faults.new ≡ noted self.now.schemas.now faults.old
            (mention.in_ref scope.now reference.now)) }
    {
        self.column(scope, &reference.table, &reference.column, faults)?;
        Ok(())
    }

    fn expression(
        &self,
        scope: &[Heading],
        expression: &Expr,
        faults: &mut NameFaults,
    ) -> Result<(), NoMemory>
        requires room { length scope.now ≤ 256 }
        requires form { IsTrue (has_names expression.now) }
        ensures { OnOk result (faults.new ≡ noted self.now.schemas.now faults.old
            (mention.in_expr scope.now expression.now)) }
    {
        match expression {
            Expr::Column(reference) => self.reference(scope, reference, faults)?,
            Expr::Literal(_) => {}
            Expr::Arith(_, left, right) | Expr::Compare(_, left, right) => {
                self.expression(scope, left.get(), faults)?;
                self.expression(scope, right.get(), faults)?;
            }
            Expr::And(left, right) | Expr::Or(left, right) => {
                self.expression(scope, left.get(), faults)?;
                self.expression(scope, right.get(), faults)?;
            }
            Expr::IsNull(operand) | Expr::Not(operand) => {
                self.expression(scope, operand.get(), faults)?;
            }
        }
        Ok(())
    }

    fn filter(
        &self,
        scope: &[Heading],
        filter: &Option<Expr>,
        faults: &mut NameFaults,
    ) -> Result<(), NoMemory>
        requires room { length scope.now ≤ 256 }
        requires form { IsTrue (is_filter filter.now) }
        ensures { OnOk result (faults.new ≡ noted self.now.schemas.now faults.old
            (mention.in_filter scope.now filter.now)) }
    {
        if let Some(condition) = filter {
            self.expression(scope, condition, faults)?;
        }
        Ok(())
    }

    fn item(&self, scope: &[Heading], item: &Item, faults: &mut NameFaults) -> Result<(), NoMemory>
        requires room { length scope.now ≤ 256 }
        requires form { IsTrue (is_item item.now) }
        ensures { OnOk result (faults.new ≡ noted self.now.schemas.now faults.old
            (mention.in_item scope.now item.now)) }
    {
        match item {
            Item::Plain(expression, _) => self.expression(scope, expression, faults)?,
            Item::Agg(Agg::CountAll, _) => {}
            Item::Agg(Agg::Count(argument), _) => self.expression(scope, argument, faults)?,
            Item::Agg(Agg::Sum(argument), _) => self.expression(scope, argument, faults)?,
            Item::Agg(Agg::Min(argument), _) => self.expression(scope, argument, faults)?,
            Item::Agg(Agg::Max(argument), _) => self.expression(scope, argument, faults)?,
        }
        Ok(())
    }

    fn items(
        &self,
        scope: &[Heading],
        items: &[Item],
        faults: &mut NameFaults,
    ) -> Result<(), NoMemory>
        requires room { length scope.now ≤ 256 }
        requires form { IsTrue (list_all is_item items.now) }
        ensures { OnOk result (faults.new ≡ noted self.now.schemas.now faults.old
            (mention.each (mention.in_item scope.now) items.now)) }
    {
        for item in items {
            self.item(scope, item, faults)?;
        }
        Ok(())
    }

    fn pairs(
        &self,
        scope: &[Heading],
        pairs: &[(Ref, Ref)],
        faults: &mut NameFaults,
    ) -> Result<(), NoMemory>
        requires room { length scope.now ≤ 256 }
        requires form { IsTrue (list_all is_pair pairs.now) }
        ensures { OnOk result (faults.new ≡ noted self.now.schemas.now faults.old
            (mention.each (mention.in_pair scope.now) pairs.now)) }
    {
        for pair in pairs {
            self.reference(scope, &pair.0, faults)?;
            self.reference(scope, &pair.1, faults)?;
        }
        Ok(())
    }

    fn references(
        &self,
        scope: &[Heading],
        references: &[Ref],
        faults: &mut NameFaults,
    ) -> Result<(), NoMemory>
        requires room { length scope.now ≤ 256 }
        requires form { IsTrue (list_all are_names references.now) }
        ensures { OnOk result (faults.new ≡ noted self.now.schemas.now faults.old
            (mention.each (mention.in_ref scope.now) references.now)) }
    {
        for reference in references {
            self.reference(scope, reference, faults)?;
        }
        Ok(())
    }

    fn source(
        &self,
        source: &SourceRef,
        later: &[SourceRef],
        faults: &mut NameFaults,
    ) -> Result<(), NoMemory>
        ensures { OnOk result (faults.new ≡ noted self.now.schemas.now faults.old
            (mention.in_source source.now later.now)) }
    {
        self.table(&source.table, faults)?;
        let is_again = is_source_among(&source.name, later);
        note_given(&source.name, is_again, faults)?;
        Ok(())
    }

    /// The sources behind the first, whose columns begin at a place, each with its ON.
    #[tactic(auto, unfolding(sql_model::specs::Mentions::in_join))]
    fn joins(
        &self,
        scope: &[Heading],
        start: usize,
        sources: &[SourceRef],
        ons: &[RefPairs],
        faults: &mut NameFaults,
    ) -> Result<(), NoMemory>
        requires room { length scope.now ≤ 256 }
        requires scope { IsFrom self.now.schemas.now scope.now start sources.now }
        requires form { IsTrue (list_all is_on ons.now) }
        ensures { OnOk result (faults.new ≡ noted self.now.schemas.now faults.old
            (mention.in_joins self.now.schemas.now (take start scope.now) sources.now ons.now)) }
    {
        let row = joined(self.schemas, scope, start, sources);
        let [source, sources @ ..] = sources else {
            return Ok(());
        };
        let [on, ons @ ..] = ons else {
            return Ok(());
        };
        self.source(source, sources, faults)?;
        self.pairs(row, on.as_slice(), faults)?;
        self.joins(scope, row.len(), sources, ons, faults)?;
        Ok(())
    }

    fn sources(
        &self,
        scope: &[Heading],
        sources: &[SourceRef],
        ons: &[RefPairs],
        faults: &mut NameFaults,
    ) -> Result<(), NoMemory>
        requires room { length scope.now ≤ 256 }
        requires scope { scope.now ≡ scope_of self.now.schemas.now sources.now }
        requires form { IsTrue (list_all is_on ons.now) }
        ensures { OnOk result (faults.new ≡ noted self.now.schemas.now faults.old
            (mention.in_sources self.now.schemas.now sources.now ons.now)) }
    {
        let row = joined(self.schemas, scope, 0, sources);
        let [source, sources @ ..] = sources else {
            return Ok(());
        };
        self.source(source, sources, faults)?;
        self.joins(scope, row.len(), sources, ons, faults)?;
        Ok(())
    }

    /// A key of ORDER BY, by the name or the number of an output.
    fn key(
        &self,
        scope: &[Heading],
        query: &Select,
        by: &OrderBy,
        faults: &mut NameFaults,
    ) -> Result<(), NoMemory>
        requires room { length scope.now ≤ 256 }
        requires form { IsTrue (is_select query.now) }
        ensures { OnOk result (faults.new ≡ noted_one self.now.schemas.now faults.old
            (mention.key (mention.output_names scope.now query.now) by.now)) }
    {
        match by {
            OrderBy::Name(name) => match output_named(scope, query, name) {
                Found::One(_) => {}
                Found::Absent => {
                    if faults.column.is_none() {
                        faults.column = Some(Refusal::UnknownColumn(name.copy()?));
                    }
                }
                Found::Several => {
                    if faults.ambiguous.is_none() {
                        faults.ambiguous = Some(Refusal::Ambiguous(name.copy()?));
                    }
                }
            },
            OrderBy::Number(number) => {
                let is_output = *number != 0 && *number <= output_count(scope, query) as u64;
                if !is_output && faults.column.is_none() {
                    let name = number_text(self.alloc, *number)?;
                    faults.column = Some(Refusal::UnknownColumn(name));
                }
            }
        }
        Ok(())
    }

    #[tactic(auto, unfolding(sql_model::specs::Mentions::in_order))]
    fn order(
        &self,
        scope: &[Heading],
        query: &Select,
        faults: &mut NameFaults,
    ) -> Result<(), NoMemory>
        requires room { length scope.now ≤ 256 }
        requires form { IsTrue (is_select query.now) }
        ensures { OnOk result (faults.new ≡ noted self.now.schemas.now faults.old
            (mention.in_order scope.now query.now)) }
    {
        for key in query.order.as_slice() {
            self.key(scope, query, &key.by, faults)?;
        }
        Ok(())
    }

    fn columns(&self, columns: &[Column], faults: &mut NameFaults) -> Result<(), NoMemory>
        ensures { OnOk result (faults.new ≡ noted self.now.schemas.now faults.old
            (mention.in_columns columns.now)) }
    {
        for (place, column) in columns.iter().enumerate() {
            let is_again = is_column_among(&column.name, &columns[place + 1..]);
            note_given(&column.name, is_again, faults)?;
        }
        Ok(())
    }

    fn set(
        &self,
        scope: &[Heading],
        set: &Set,
        later: &[Set],
        faults: &mut NameFaults,
    ) -> Result<(), NoMemory>
        requires room { length scope.now ≤ 256 }
        requires form { IsTrue (is_set set.now) }
        ensures { OnOk result (faults.new ≡ noted self.now.schemas.now faults.old
            (mention.in_set scope.now set.now later.now)) }
    {
        self.column(scope, &None, &set.column, faults)?;
        note_given(&set.column, is_set_among(&set.column, later), faults)?;
        self.expression(scope, &set.value, faults)?;
        Ok(())
    }

    fn sets(&self, scope: &[Heading], sets: &[Set], faults: &mut NameFaults) -> Result<(), NoMemory>
        requires room { length scope.now ≤ 256 }
        requires form { IsTrue (list_all is_set sets.now) }
        ensures { OnOk result (faults.new ≡ noted self.now.schemas.now faults.old
            (mention.in_sets scope.now sets.now)) }
    {
        for (place, set) in sets.iter().enumerate() {
            self.set(scope, set, &sets[place + 1..], faults)?;
        }
        Ok(())
    }

    fn select(
        &self,
        scope: &[Heading],
        query: &Select,
        faults: &mut NameFaults,
    ) -> Result<(), NoMemory>
        requires room { length scope.now ≤ 256 }
        requires scope { scope.now ≡ scope_of self.now.schemas.now query.now.sources }
        requires form { IsTrue (is_select query.now) }
        ensures { OnOk result (faults.new ≡ noted self.now.schemas.now faults.old
            (mention.in_select self.now.schemas.now query.now)) }
    {
        self.items(scope, query.items.as_slice(), faults)?;
        self.sources(
            scope,
            query.sources.as_slice(),
            query.ons.as_slice(),
            faults,
        )?;
        self.filter(scope, &query.filter, faults)?;
        self.references(scope, query.groups.as_slice(), faults)?;
        self.order(scope, query, faults)?;
        Ok(())
    }

    /// All names of a statement in the order of its text.
    pub fn statement(
        &self,
        scope: &[Heading],
        statement: &Statement,
        faults: &mut NameFaults,
    ) -> Result<(), NoMemory>
        requires room { length scope.now ≤ 256 }
        requires scope { scope.now ≡ statement_scope self.now.schemas.now statement.now }
        requires form { IsInForm statement.now }
        ensures { OnOk result (faults.new ≡ noted self.now.schemas.now faults.old
            (mention.mentions self.now.schemas.now statement.now)) }
    {
        match statement {
            Statement::Create {
                columns,
                distribution,
                ..
            } => {
                self.columns(columns.as_slice(), faults)?;
                if let Some(name) = distribution {
                    self.column(scope, &None, name, faults)?;
                }
            }
            Statement::Select(query) => self.select(scope, query, faults)?,
            Statement::Update {
                table,
                sets,
                filter,
            } => {
                self.table(table, faults)?;
                self.sets(scope, sets.as_slice(), faults)?;
                self.filter(scope, filter, faults)?;
            }
            Statement::Delete { table, filter } => {
                self.table(table, faults)?;
                self.filter(scope, filter, faults)?;
            }
            Statement::Insert { table, .. } => self.table(table, faults)?,
            Statement::Compact { table } => self.table(table, faults)?,
            Statement::Checkpoint { table } => self.table(table, faults)?,
            Statement::Begin => {}
            Statement::Commit => {}
            Statement::RollBack => {}
            Statement::Collect { .. } => {}
        }
        Ok(())
    }
}
