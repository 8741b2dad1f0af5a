//! What an office keeps in memory: its history in proofs, and beside it the stations in force, the cells of their days, the accepted
//! edits and the references by which an edit is known again. It knows no disk.
#![tactic(auto)]

pub mod accepting;
pub mod answers;
pub mod computing;
pub mod judged;
pub mod judging;
pub mod laws;
pub mod references;
pub mod registers;
mod reviewing;

pub use answers::{Answer, Sheet};
pub use judged::{Judged, NotReadmitted};
pub use references::References;
pub use registers::Register;
