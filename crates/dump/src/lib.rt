//! A log as text: one line for each record, then how many there are, or the fault. Rests on records, and on keys for
//! the numbers of refusals.
#![tactic(auto)]

mod lines;

ghost use Rattle.std.specs.Prelude.{◌≡◌, IfOk, string_bytes};
ghost use Rattle.records.specs.Logs.{LogLaws};
ghost use Rattle.dump.specs.Lines.{printed};

use crate::lines::push_log;
use std::alloc::{AllocError, Global};

/// The most bytes of a log that are printed; of a longer one the text is only `long`.
pub const MOST: usize = 65_536;

/// What is printed of a log, or an error. The code fails only where memory does; the contract leaves open when.
pub fn dump(heap: Global, log: &[u8]) -> Result<String, AllocError>
    ensures text { IfOk result (λ t. string_bytes t ≡ printed log.now) }
    ensures laws { LogLaws log.now }
{
    if log.len() > MOST {
        return String::from_str(heap, "long\n");
    }
    let mut text = String::new(heap);
    push_log(&mut text, log)?;
    Ok(text)
}
