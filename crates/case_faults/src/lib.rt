//! Faults of a case's runs and imports, each in turn, and what is done on what each leaves.
//!
//! **What is kept here.** Nothing between two runs. [`with_faults`] tries faults of a script's run, on copies of the device of a case, and
//! does what stands behind them in the case on what each leaves; [`imported`] tries the import of a case's file in all ways. A device is left
//! by five choices of the values that are pending on it. Devices are counted in sectors of 512 bytes.
//!
//! **What is promised.** Nothing beyond safety: whatever the program does, neither panics, and each ends.
#![tactic(auto)]

mod choices;
mod faults;
mod imports;

pub use faults::with_faults;
pub use imports::imported;
