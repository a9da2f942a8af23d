use std::alloc::AllocError;

/// Why a value is no cell.
#[derive(Clone, Copy, Debug, PartialEq, Eq)]
pub enum CellFault {
    /// It has the form of no cell, or a part of it is faulty.
    Bad,
    OutOfMemory,
}

impl From<AllocError> for CellFault {
    ghost use Rattle.std.specs.Prelude.{◌≡◌};
    ghost use Rattle.cell_text.specs.declared.fault.CellFault.TheVariants.{OutOfMemory};

    ghost from_gives = { λ _ fault. fault ≡ OutOfMemory };

    fn from(_error: AllocError) -> CellFault {
        CellFault::OutOfMemory
    }
}
