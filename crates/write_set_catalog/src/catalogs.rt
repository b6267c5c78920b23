ghost use Rattle.std.specs.Prelude.{◌≡◌, ◌+◌, ◌<◌, ◌≤◌, ◌^◌, IfOk, IfSome, IfNone, OnOk, OnErr};
ghost use Rattle.std.specs.Prelude.{map};
ghost use Rattle.lake_outside.specs.Ports.{told_blob};
ghost use Rattle.write_set_catalog.specs.Catalogs as said;
ghost use Rattle.write_set_catalog.specs.Conflicts.{HasNoConflict, IsFirstConflict};

use crate::conflicts::{first_writer, later_commits};
use crate::{CatCheck, CatCommit, CatTable, RunningTxn};
use lake_outside::Port;
use lake_values::{NoMemory, Schema, Text};
use sql_model::Marks;
use std::alloc::Global;
use std::marker::Model;

/// What a lake knows of its commits, checkpoints and open transactions without going through the
/// chronicle. Contracts see it as plain data, and how many commits and blobs more it has room for.
#[derive(Drop)]
pub struct Catalog<P: Port> {
    tables: Vec<CatTable>,
    commits: Vec<CatCommit<P>>,
    checks: Vec<CatCheck<P>>,
    blobs: Vec<P::Blob>,
    running: Vec<RunningTxn>,
    last: u64,
    last_number: u64,
    floor: u64,
}

impl<P: Port> Model for Catalog<P> {
    ghost use Rattle.std.specs.Prelude.{◌-◌, map, vec_capacity, vec_len};
    ghost use Rattle.lake_outside.specs.Ports.{told_blob};
    ghost use Rattle.write_set_catalog.specs.Catalogs.{AreInOrder, AreUpTo, Catalogued};

    ghost Value = { Catalogued };

    ghost view = { λ c. record {
      catalogue = record {
        tables = c.tables.items;
        commits = c.commits.items;
        checks = c.checks.items;
        blobs = map (told_blob P.Blob.name P.Blob.bytes) c.blobs.items;
        running = c.running.items;
        last = c.last;
        last_number = c.last_number;
        floor = c.floor;
      };
      spare_commits = vec_capacity c.commits - vec_len c.commits;
      spare_blobs = vec_capacity c.blobs - vec_len c.blobs;
    } };

    ghost invariant = { λ c. AreInOrder c.commits.items × AreUpTo c.last c.commits.items };
}

impl<P: Port> Catalog<P> {
    /// The catalogue of a lake without commits, whose last version is 0.
    pub fn empty(alloc: Global) -> Catalog<P>
        ensures { result.catalogue ≡ said.empty }
    {
        Catalog {
            tables: Vec::new(alloc),
            commits: Vec::new(alloc),
            checks: Vec::new(alloc),
            blobs: Vec::new(alloc),
            running: Vec::new(alloc),
            last: 0,
            last_number: 0,
            floor: 0,
        }
    }

    /// The tables, in the order in which they were created.
    pub fn tables(&self) -> &[CatTable]
        ensures { result.now ≡ self.now.catalogue.tables }
    {
        self.tables.as_slice()
    }

    /// The commits, in order.
    pub fn commits(&self) -> &[CatCommit<P>]
        ensures { result.now ≡ self.now.catalogue.commits }
    {
        self.commits.as_slice()
    }

    /// The checkpoints, in the order in which they were written.
    pub fn checks(&self) -> &[CatCheck<P>]
        ensures { result.now ≡ self.now.catalogue.checks }
    {
        self.checks.as_slice()
    }

    /// The blobs of files and vectors.
    pub fn blobs(&self) -> &[P::Blob]
        ensures { map (told_blob P.Blob.name P.Blob.bytes) result.now ≡ self.now.catalogue.blobs }
    {
        self.blobs.as_slice()
    }

    /// The open transactions, in the order in which they began.
    pub fn running(&self) -> &[RunningTxn]
        ensures { result.now ≡ self.now.catalogue.running }
    {
        self.running.as_slice()
    }

    /// The number of the last version.
    pub fn last(&self) -> u64
        ensures { result ≡ self.now.catalogue.last }
    {
        self.last
    }

    /// The number of the last transaction that began.
    pub fn last_number(&self) -> u64
        ensures { result ≡ self.now.catalogue.last_number }
    {
        self.last_number
    }

    /// The number of the first version that can still be read.
    pub fn floor(&self) -> u64
        ensures { result ≡ self.now.catalogue.floor }
    {
        self.floor
    }

    /// The first commit after a snapshot that wrote what a transaction wrote that removed rows with
    /// these marks. It looks at the rows of later commits alone.
    pub fn first_conflict(&self, snapshot: u64, marks: &Marks) -> Option<u64>
        ensures found { IfSome result
            (IsFirstConflict snapshot marks.now self.now.catalogue.commits) }
        ensures none { IfNone result (HasNoConflict snapshot marks.now self.now.catalogue.commits) }
    {
        first_writer(later_commits(self.commits.as_slice(), snapshot), marks)
    }

    /// Puts a table that the next version creates behind the others.
    pub fn create(&mut self, name: Text, schema: Schema) -> Result<u64, NoMemory>
        requires { self.old.catalogue.last + 1 < 2 ^ 64 }
        ensures ok { OnOk result (self.new.catalogue ≡ said.with_table
            (record { name = name; schema = schema; since = self.old.catalogue.last + 1 })
            self.old.catalogue) }
        ensures number { IfOk result (λ seq. seq ≡ self.new.catalogue.last) }
        ensures err { OnErr result (self.new.catalogue ≡ self.old.catalogue) }
        ensures commits_room { self.new.spare_commits ≡ self.old.spare_commits }
        ensures blobs_room { self.new.spare_blobs ≡ self.old.spare_blobs }
    {
        let since = self.last + 1;
        self.tables.push(CatTable {
            name,
            schema,
            since,
        })?;
        self.last = since;
        Ok(since)
    }

    /// Begins a transaction that sees a version, and answers its number.
    pub fn begin(&mut self, snapshot: u64) -> Result<u64, NoMemory>
        requires { self.old.catalogue.last_number + 1 < 2 ^ 64 }
        ensures ok { IfOk result (λ number. self.new.catalogue ≡ said.with_running
            (record { number = number; snapshot = snapshot }) self.old.catalogue) }
        ensures number { IfOk result (λ number. number ≡ self.old.catalogue.last_number + 1) }
        ensures err { OnErr result (self.new.catalogue ≡ self.old.catalogue) }
        ensures commits_room { self.new.spare_commits ≡ self.old.spare_commits }
        ensures blobs_room { self.new.spare_blobs ≡ self.old.spare_blobs }
    {
        let number = self.last_number + 1;
        self.running.push(RunningTxn { number, snapshot })?;
        self.last_number = number;
        Ok(number)
    }

    /// Ends a transaction. It takes no memory.
    pub fn end(&mut self, number: u64)
        ensures same { self.new ≡ record self.old {
          catalogue = said.without_running number self.old.catalogue;
        } }
    {
        self.running.retain(|txn| txn.number != number);
    }

    /// Puts a checkpoint behind the others.
    pub fn checkpoint(&mut self, check: CatCheck<P>) -> Result<(), NoMemory>
        ensures ok { OnOk result
            (self.new.catalogue ≡ said.with_check check self.old.catalogue) }
        ensures err { OnErr result (self.new.catalogue ≡ self.old.catalogue) }
        ensures commits_room { self.new.spare_commits ≡ self.old.spare_commits }
        ensures blobs_room { self.new.spare_blobs ≡ self.old.spare_blobs }
    {
        self.checks.push(check)?;
        Ok(())
    }

    /// Makes room for more commits.
    pub fn reserve(&mut self, commits: u64) -> Result<(), NoMemory>
        ensures same { self.new.catalogue ≡ self.old.catalogue }
        ensures room { OnOk result (commits ≤ self.new.spare_commits) }
        ensures keeps { self.old.spare_commits ≤ self.new.spare_commits }
        ensures blobs_room { self.new.spare_blobs ≡ self.old.spare_blobs }
    {
        self.commits.reserve(commits as usize)?;
        Ok(())
    }

    /// Makes room for more blobs.
    pub fn reserve_blobs(&mut self, blobs: u64) -> Result<(), NoMemory>
        ensures same { self.new.catalogue ≡ self.old.catalogue }
        ensures room { OnOk result (blobs ≤ self.new.spare_blobs) }
        ensures keeps { self.old.spare_blobs ≤ self.new.spare_blobs }
        ensures commits_room { self.new.spare_commits ≡ self.old.spare_commits }
    {
        self.blobs.reserve(blobs as usize)?;
        Ok(())
    }

    /// Puts the next commit behind the others. It takes no memory.
    pub fn append(&mut self, commit: CatCommit<P>)
        requires room { 0 < self.old.spare_commits }
        requires next { commit.seq ≡ self.old.catalogue.last + 1 }
        ensures commit { self.new.catalogue ≡ said.with_commit commit self.old.catalogue }
        ensures room { self.old.spare_commits ≤ self.new.spare_commits + 1 }
        ensures blobs_room { self.new.spare_blobs ≡ self.old.spare_blobs }
    {
        self.last = commit.seq;
        self.commits.push_reserved(commit);
    }

    /// Puts the blob of a file or a vector behind the others. It takes no memory.
    pub fn keep(&mut self, blob: P::Blob)
        requires { 0 < self.old.spare_blobs }
        ensures blob { self.new.catalogue
            ≡ said.with_blob (told_blob P.Blob.name P.Blob.bytes blob) self.old.catalogue }
        ensures room { self.old.spare_blobs ≤ self.new.spare_blobs + 1 }
        ensures commits_room { self.new.spare_commits ≡ self.old.spare_commits }
    {
        self.blobs.push_reserved(blob);
    }

    /// Lets no version before this one be read.
    pub fn raise_floor(&mut self, floor: u64)
        ensures { self.new ≡ record self.old {
          catalogue = said.with_floor floor self.old.catalogue;
        } }
    {
        self.floor = floor;
    }
}
