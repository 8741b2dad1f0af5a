//! The bytes of accepted edits in the journal, and of the sheets of approvals.
#![tactic(auto)]

pub mod codec;
mod drafts;
mod edition_drafts;
mod edition_parsing;
mod entry_drafts;
mod estimate_drafts;
pub mod formats;
pub mod frames;
pub mod laws;
pub mod lengths;
mod measurement_drafts;
mod measurement_parsing;
mod number_writing;
mod parsing;
pub mod payloads;
mod period_drafts;
mod rating_drafts;
mod rating_parsing;
mod reading_drafts;
mod reading_parsing;
mod review_drafts;
mod review_parsing;
mod sheet_drafts;
pub mod sheets;
mod writing;

pub use codec::{decode, encode, encode_and_close};
pub use formats::Format;
pub use frames::{BEFORE_PAYLOAD, HEADER_LEN};
pub use lengths::{edit_len, record_len};
pub use payloads::{DecodeFault, Record};
pub use sheets::{SheetList, are_sheets_of};
