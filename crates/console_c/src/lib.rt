//! The library for consoles: the calls of crate console for programs in C and in Rust, which link it as a static library.
//! include/konjacattic.h declares them and says what they answer. Rests on console.
#![tactic(auto)]

ghost use Rattle.std.specs.Prelude.{◌≡◌, length};
ghost use Rattle.console.specs.Readings.{checked};
ghost use Rattle.console.specs.Asked.{asked, log_read, page_answered, log_page_lines, page_numbers, LogPageLaw};
ghost use Rattle.console.specs.Counts.{key_asked, count_answered, count_read, count_numbers, CountLaw};
ghost use Rattle.console.specs.Numbers.{number_page_answered, number_page_lines, number_page_numbers, NumberPageLaw};

use console::log_count::{CountNumbers, count_in_log};
use console::log_page::page_of_log;
use console::number_page::page_of_numbers;
use console::page::{Line, PageNumbers};
use console::reading::{Reading, check};

/// Reads a log, and answers what ended the reading.
#[unsafe(no_mangle)]
pub extern "C" fn konjacattic_check(log: &[u8], reading: &mut Reading) -> u32
    ensures reading { reading.new ≡ checked log.now }
    ensures answer { result ≡ (checked log.now).fault }
{
    check(log, reading)
}

/// Writes the page of a log.
#[unsafe(no_mangle)]
pub extern "C" fn konjacattic_page(
    log: &[u8],
    first: u32,
    second: u32,
    k: u32,
    limit: u32,
    lines: &mut [Line],
    reading: &mut Reading,
    page: &mut PageNumbers,
) -> u32
    ensures answer { result ≡ page_answered k log.now (asked first second k) limit (length lines.old) }
    ensures lines { lines.new ≡ log_page_lines k log.now (asked first second k) limit lines.old }
    ensures reading { reading.new ≡ log_read k log.now (asked first second k) reading.old }
    ensures numbers { page.new ≡ page_numbers k log.now (asked first second k) limit (length lines.old) page.old }
    ensures law { LogPageLaw k log.now (asked first second k) limit }
{
    page_of_log(log, first, second, k, limit, lines, reading, page)
}

/// Counts one key in a log.
#[unsafe(no_mangle)]
pub extern "C" fn konjacattic_count(
    log: &[u8],
    first: u32,
    second: u32,
    k: u32,
    first_part: &[u8],
    second_part: &[u8],
    reading: &mut Reading,
    count: &mut CountNumbers,
) -> u32
    ensures answer { result ≡ count_answered (key_asked first second k first_part.now second_part.now) }
    ensures reading { reading.new ≡ count_read k log.now (key_asked first second k first_part.now second_part.now) reading.old }
    ensures count { count.new ≡ count_numbers k log.now (key_asked first second k first_part.now second_part.now) count.old }
    ensures law { CountLaw k log.now (key_asked first second k first_part.now second_part.now) }
{
    count_in_log(
        log,
        first,
        second,
        k,
        first_part,
        second_part,
        reading,
        count,
    )
}

/// Writes the page of a list of numbers.
#[unsafe(no_mangle)]
pub extern "C" fn konjacattic_page_of_numbers(
    entries: &[u32],
    k: u32,
    limit: u32,
    lines: &mut [Line],
    page: &mut PageNumbers,
) -> u32
    ensures answer { result ≡ number_page_answered entries.now k limit (length lines.old) }
    ensures lines { lines.new ≡ number_page_lines entries.now k limit lines.old }
    ensures numbers { page.new ≡ number_page_numbers entries.now k limit (length lines.old) page.old }
    ensures law { NumberPageLaw entries.now k limit }
{
    page_of_numbers(entries, k, limit, lines, page)
}
