//! What a console asks of a log, on numbers and bytes: whether it can be read, a page, the count of one
//! key. What is answered and written are numbers, in structs that a program in C can read. Nothing is allocated. Rests on
//! keys, records, model, tree, summaries, sketch, lenses, feeding and pages.
#![tactic(auto)]

mod fed;
pub mod lens;
pub mod log_count;
pub mod log_page;
pub mod number_page;
pub mod page;
pub mod part;
pub mod reading;
