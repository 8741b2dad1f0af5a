//! Why a body is no edit.

use crate::members::Member;
use thiserror::Error;

/// Why a body is no edit.
#[derive(Clone, Copy, Debug, PartialEq, Eq, Error)]
pub enum BodyFault {
    /// It is no text in JSON.
    #[error("the body is no JSON")]
    Json,
    /// This member is the first that is missing or ill formed, or there is a further one.
    #[error("the member {0} is missing, ill formed or too many")]
    Body(Member),
    /// There was no memory for the edit.
    #[error("there is no memory for the edit of a body")]
    NoMemory,
}
