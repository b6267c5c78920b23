ghost use Rattle.sql_binder.specs.Judging.{Judges};

use lake_values::NoMemory;
use sql_model::Refusal;

/// Why a statement has no bound form.
#[derive(Debug, Drop)]
pub enum BindFault {
    Refused(Refusal),
    NoMemory,
}

impl From<NoMemory> for BindFault {
    ghost use Rattle.std.specs.Prelude.{◌≡◌};
    ghost use Rattle.sql_binder.specs.declared.faults.BindFault.TheVariants.{NoMemory as OutOfMemory};

    ghost from_gives = { λ _ fault. fault ≡ OutOfMemory };

    fn from(_refused: NoMemory) -> BindFault {
        BindFault::NoMemory
    }
}

fn refuse(refusal: Option<Refusal>) -> Result<(), BindFault>
    ensures { Judges result refusal }
{
    match refusal {
        Some(refusal) => Err(BindFault::Refused(refusal)),
        None => Ok(()),
    }
}

/// The first fault of each kind among the names of a statement.
#[derive(Drop)]
pub struct NameFaults {
    pub table: Option<Refusal>,
    pub column: Option<Refusal>,
    pub ambiguous: Option<Refusal>,
}

impl NameFaults {
    ghost use Rattle.sql_binder.specs.Noting.{least};

    /// Refuses by the least of the faults.
    pub fn judge(self) -> Result<(), BindFault>
        ensures { Judges result (least self) }
    {
        let NameFaults {
            table,
            column,
            ambiguous,
        } = self;
        refuse(table)?;
        refuse(column)?;
        refuse(ambiguous)?;
        Ok(())
    }
}
