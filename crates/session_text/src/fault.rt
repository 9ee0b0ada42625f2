//! Why a text has no output.
ghost use Rattle.std.specs.Prelude.{◌≡◌, Some};
ghost use Rattle.session_text.specs.declared.fault.RunFault.TheVariants.{Refused};
ghost use Rattle.seq_model.specs.declared.refusal.Refusal.TheVariants.{Memory as OutOfMemory};
ghost use Rattle.session_text.specs.Faults.{audit_fault};
ghost use Rattle.session_text.specs.Texts.{run_fault_text};

use seq_model::{AuditFault, Memory, Refusal};
use std::error::Error;
use std::fmt;

/// Why a text has no output: it is refused, or the audit of its run or of its tables finds a fault. A step script ends by the same causes.
#[derive(Drop, Debug)]
pub enum RunFault {
    /// The text is outside the grammar, or an allocation failed. A step script may also be beyond a limit.
    Refused(Refusal),
    /// What was committed is no run from the opening to what is left.
    Audit,
    /// The reservation tables that are left are not balanced.
    NotBalanced,
}

impl fmt::Display for RunFault {
    ghost output = { λ fault. Some (run_fault_text fault) };

    fn fmt<W: fmt::Write>(&self, f: &mut fmt::Formatter<W>) -> fmt::Result {
        match self {
            RunFault::Refused(refusal) => write!(f, "the run was refused: {refusal}"),
            RunFault::Audit => f.write_str(
                "what was committed is no run from the opening to what is left",
            ),
            RunFault::NotBalanced => f.write_str(
                "the reservation tables that are left are not balanced",
            ),
        }
    }
}

impl Error for RunFault {}

impl From<Refusal> for RunFault {
    ghost from_gives = { λ refusal fault. fault ≡ Refused refusal };

    fn from(refusal: Refusal) -> RunFault {
        RunFault::Refused(refusal)
    }
}

impl From<Memory> for RunFault {
    ghost from_gives = { λ _ fault. fault ≡ Refused OutOfMemory };

    fn from(_memory: Memory) -> RunFault {
        RunFault::Refused(Refusal::Memory)
    }
}

impl From<AuditFault> for RunFault {
    ghost from_gives = { λ cause fault. fault ≡ audit_fault cause };

    fn from(cause: AuditFault) -> RunFault {
        match cause {
            AuditFault::Memory => RunFault::Refused(Refusal::Memory),
            _ => RunFault::Audit,
        }
    }
}
