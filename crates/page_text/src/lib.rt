//! The page of a log as text: the flight words that come most often, each with a lower and an upper bound of the
//! number of its records. Rests on keys, records, model, tree, summaries, sketch, lenses, feeding and pages.
#![tactic(auto)]

mod lines;
mod text;

ghost use Rattle.std.specs.Prelude.{◌≡◌, IfOk, string_bytes};
ghost use Rattle.records.specs.Logs.{log_of};
ghost use Rattle.page_text.specs.Text.{printed, KeepsPageTextLaw};

use crate::text::push_log;
use std::alloc::{AllocError, Global};

/// The most bytes of a log that are read; of a longer one the text is only `long`.
pub const MOST: usize = 65_536;

/// What is printed of a log, or an error. The code fails only where memory does; the contract leaves open when.
#[tactic(auto, using(crate::proofs::Bounds::keeps_page_text_law))]
pub fn page_text(heap: Global, log: &[u8]) -> Result<String, AllocError>
    ensures text { IfOk result (λ t. string_bytes t ≡ printed log.now) }
    ensures law { KeepsPageTextLaw (log_of log.now) }
{
    if log.len() > MOST {
        return String::from_str(heap, "long\n");
    }
    let mut text = String::new(heap);
    push_log(&mut text, log)?;
    Ok(text)
}
