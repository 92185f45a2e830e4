//! The fields and lists of a journal text's lines, both ways: numbers, fixed words, ranges, runs of pages and byte
//! lists, each with one text, which is read back as the same.
//! Used through `up_script`.
#![tactic(auto)]

mod fields;
pub mod laws;
mod lists;
mod put;
mod tail;

pub use fields::{
    COUNTS, LASTS, OFFSETS, PAGES, SIZES, TICKETS, flag, read_code, read_count, read_flag,
    read_page, read_range, total,
};
pub use lists::{read_pages, read_runs_of_pages, read_tickets, shows_runs};
pub use put::{
    put_bytes, put_code, put_flag, put_next, put_number, put_numbers, put_page, put_pages,
    put_range, put_ranges, put_with_flag, put_with_number, put_with_range, put_word,
};
pub use tail::Tail;
