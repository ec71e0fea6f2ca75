//! Rows of data, as the programs `run_rows`, `module_rows` and `text_rows` run them.
//!
//! A row is a line of a file `*.jsonl`: a JSON object with the text `name`, which says what is tried, and further keys, which the program
//! reads that runs it. `run_files` goes through the files of the folder that it is run in, hands each row to the program's `Judge`, and
//! prints the file, the line, the name and the first difference of each row that differs, and then how many rows there were. Promised is that
//! each function returns.
//!
//! Stands on `serde_json` for JSON, and on `hex` for digits. It knows nothing of what a program calls.
#![tactic(auto)]

mod difference;
mod fault;
mod files;
mod keys;

pub use difference::{bytes_difference, number_difference, text_difference, truth_difference};
pub use fault::RowFault;
pub use files::{Judge, run_files};
pub use keys::{
    array_at, bytes_at, bytes_of, flag_at, name_of, number_at, opt_array_at, opt_bytes_at,
    opt_number_at, opt_text_at, opt_texts_at, text_at, text_of, texts_at,
};
