//! Rating tables: the discharge of a stage and the stage of a discharge, and tables read from RDB texts.
#![tactic(auto)]

pub mod laws;
pub mod rdb;
mod rdb_fields;
mod rdb_lines;
mod rdb_rows;
pub mod shared;
pub mod table;

pub use rdb::{RdbFault, read_rdb};
pub use shared::SharedTable;
pub use table::{LEAST_ROWS, MOST_ROWS, Rated, Table, TableFault, is_rating_row};
