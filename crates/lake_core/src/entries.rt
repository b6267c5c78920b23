ghost use Rattle.std.specs.Prelude.{◌≡◌, [], IfOk};
ghost use Rattle.lake_core.specs.Facts as facts;
ghost use Rattle.lake_core.specs.Rooms.{IsPartChange};
ghost use Rattle.lake_model.specs.State.{parts_of};
ghost use Rattle.lake_model.specs.declared.entries.Fact.TheVariants as fact;

use crate::part_changes::PartChange;
use crate::transactions::KeptTransaction;
use crate::who::Who;
use lake_model::{Entry, Fact};
use lake_values::{Listed, NoMemory, Schema, Text};
use sql_model::{Change, Reply};
use std::alloc::Global;

/// The entry of what was done for a session.
pub fn entry(who: Who, did: Fact) -> Entry
    ensures { result ≡ record { session = who.session; place = who.place; fact = did } }
{
    Entry {
        session: who.session,
        place: who.place,
        fact: did,
    }
}

/// What a commit records that stages no blobs.
pub fn committed(alloc: Global, seq: u64) -> Fact
    ensures { result ≡ fact.Committed seq [] [] }
{
    Fact::Committed {
        seq,
        added: Listed::from_list(Vec::new(alloc)),
        dropped: Listed::from_list(Vec::new(alloc)),
    }
}

/// What the creation of a table hands on: to the versions, to the chronicle and to the session.
#[derive(Debug, Drop)]
pub struct Creation {
    pub name: Text,
    pub schema: Schema,
    pub did: Entry,
    pub reply: Reply,
}

impl Creation {
    pub fn of(
        alloc: Global,
        who: Who,
        table: &Text,
        schema: &Schema,
        seq: u64,
    ) -> Result<Creation, NoMemory>
        ensures name { IfOk result (λ c. c.name ≡ table.now) }
        ensures schema { IfOk result (λ c. c.schema ≡ schema.now) }
        ensures entry { IfOk result (λ c. c.did ≡ record { session = who.session; place = who.place; fact = fact.Created table.now schema.now seq }) }
        ensures reply { IfOk result (λ c. c.reply ≡ facts.answer (fact.Created table.now schema.now seq)) }
    {
        let did = Fact::Created {
            table: table.copy()?,
            schema: schema.copy(alloc)?,
            seq,
        };
        Ok(Creation {
            name: table.copy()?,
            schema: schema.copy(alloc)?,
            did: entry(who, did),
            reply: Reply::Created {
                table: table.copy()?,
                seq,
            },
        })
    }
}

/// What a statement that ran hands on: to the chronicle, to its transaction and to the session.
#[derive(Debug, Drop)]
pub struct Ran {
    pub did: Entry,
    pub more: PartChange,
    pub reply: Reply,
}

impl Ran {
    pub fn of(
        alloc: Global,
        who: Who,
        reply: Reply,
        change: Change,
        before: &KeptTransaction,
    ) -> Result<Ran, NoMemory>
        ensures entry { IfOk result (λ ran. ran.did ≡ record { session = who.session; place = who.place; fact = fact.Ran reply change }) }
        ensures change { IfOk result (λ ran. IsPartChange before.now change ran.more) }
        ensures reply { IfOk result (λ ran. ran.reply ≡ reply) }
    {
        let did = Fact::Ran {
            reply: reply.copy(alloc)?,
            change: change.copy(alloc)?,
        };
        let more = PartChange::of(alloc, change, before)?;
        Ok(Ran {
            did: entry(who, did),
            more,
            reply,
        })
    }
}

/// How many parts a statement makes that answers so: a write makes one.
pub fn parts_of(reply: &Reply) -> u32
    ensures { result ≡ parts_of reply.now }
{
    match reply {
        Reply::Wrote { .. } => 1,
        _ => 0,
    }
}
