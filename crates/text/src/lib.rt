//! Plan lines in, page lines out: the lines of a text, the columns of a plan line, and the rows and refusals of a page.

#![tactic(auto)]

pub mod column;
mod digits;
pub mod line;
pub mod next;
pub mod page;
pub mod refusal;
pub mod row;

pub use column::{Column, read_column};
pub use digits::write_column;
pub use line::{Entry, Line, cut_line, judge_line, read_line};
pub use next::{Lines, Next, next_line};
pub use page::{write_refusal, write_row};
pub use refusal::{Cause, Fault, Layer, Refusal};
pub use row::Row;
