//! What may be asked to change the record of a station: the edits, by whom and under which reference they are sent,
//! what they are lawful by, and whether two are the same.
#![tactic(auto)]

pub mod comments;
pub mod content;
pub mod decisions;
pub mod equality;
pub mod estimates;
pub mod faults;
pub mod kinds;
pub mod making;
pub mod measurements;
pub mod names;
pub mod senders;

pub use comments::{Comment, is_comment};
pub use content::{Edit, What};
pub use decisions::Decision;
pub use estimates::Estimate;
pub use faults::EditFault;
pub use kinds::Kind;
pub use making::{
    are_put_readings, are_settings, is_gap, is_measurement_number, is_put_curve, is_put_estimate,
    is_put_measurement, is_put_period, is_put_point, is_put_reading, is_rating_number,
    is_reading_count, is_reading_span, is_review_span, is_set_edition, is_set_number, is_zone,
};
pub use measurements::{Grade, Measurement};
pub use names::{Name, is_name};
pub use senders::{By, Ref};
