//! Why a shell ends before its input does.
ghost use Rattle.std.specs.Prelude.{◌≡◌};
ghost use Rattle.df_session.specs.declared.fault.ShellFault.TheVariants as fault;

use crate::refusal::Refusal;
use crate::refusal_texts::{new_text, refusal_text};
use df_document::{DocumentFault, document_fault_text};
use df_state::NewFault;
use std::alloc::{AllocError, AllocFailed, Global};
use thiserror::Error;

/// Why a shell ends before its input does.
#[derive(Debug, PartialEq, Eq, Drop, Error)]
pub enum ShellFault {
    /// The document does not open, as a run over it would not.
    #[error("{0}")]
    Document(DocumentFault),
    /// The document's frames are refused. Those of a document that opens are not.
    #[error("{0}")]
    Frames(NewFault),
    /// The first rows or the views are refused, which those of a document that opens are not; or a page of the views is.
    #[error("{0}")]
    Store(Refusal),
    /// A read of the commands failed.
    #[error("the commands cannot be read")]
    Read,
    /// A write failed, or took no byte.
    #[error("an answer cannot be written")]
    Write,
    /// The rows of this frame, or what was accepted and deleted of it, are not what its desk counted.
    #[error("the books of frame {0}")]
    Missing(usize),
    /// Memory was refused before the first command.
    #[error("out of memory")]
    Memory,
}

/// The text of a fault, as the program prints it behind `dfshell: `.
pub fn shell_fault_text(alloc: Global, fault: &ShellFault) -> Result<String, AllocError> {
    match fault {
        ShellFault::Document(fault) => document_fault_text(alloc, fault),
        ShellFault::Frames(fault) => new_text(alloc, *fault),
        ShellFault::Store(refusal) => refusal_text(alloc, "", refusal),
        ShellFault::Read => String::from_str(alloc, "read"),
        ShellFault::Write => String::from_str(alloc, "write"),
        ShellFault::Missing(frame) => format!(in alloc; "H4 {frame}"),
        ShellFault::Memory => String::from_str(alloc, "memory"),
    }
}

impl ShellFault {
    /// Whether memory was refused to the opening of a store.
    pub fn is_memory(&self) -> bool {
        matches!(
            self,
            ShellFault::Memory
                | ShellFault::Frames(NewFault::Memory)
                | ShellFault::Store(Refusal::Memory)
        )
    }
}

impl From<DocumentFault> for ShellFault {
    ghost from_gives = { λ f e. e ≡ fault.Document f };

    fn from(fault: DocumentFault) -> ShellFault {
        ShellFault::Document(fault)
    }
}

impl From<NewFault> for ShellFault {
    ghost from_gives = { λ f e. e ≡ fault.Frames f };

    fn from(fault: NewFault) -> ShellFault {
        ShellFault::Frames(fault)
    }
}

impl From<Refusal> for ShellFault {
    ghost from_gives = { λ r e. e ≡ fault.Store r };

    fn from(refusal: Refusal) -> ShellFault {
        ShellFault::Store(refusal)
    }
}

impl From<AllocError> for ShellFault {
    ghost from_gives = { λ _ e. e ≡ fault.Memory };

    fn from(_e: AllocError) -> ShellFault {
        ShellFault::Memory
    }
}

impl<T: Drop> From<AllocFailed<T>> for ShellFault {
    ghost from_gives = { λ _ e. e ≡ fault.Memory };

    fn from(_e: AllocFailed<T>) -> ShellFault {
        ShellFault::Memory
    }
}
