// The table of all codes and words.
ghost use Rattle.std.specs.Prelude.{◌≡◌, map};
ghost use Rattle.std.specs.List.{flat_map};
ghost use Rattle.tx_commands.specs.Entries.{texts, table};

use crate::plan_codes::PLAN_CODES;
use crate::report_words::REPORT_WORDS;
use crate::run_codes::RUN_CODES;
use crate::run_words::RUN_WORDS;
use crate::text_faults::TEXT_FAULTS;
use crate::way_words::WAY_WORDS;

/// A code or a word, its name, what it means, and what to do about it.
pub(crate) type Entry = [&'static str; 4];

/// All entries, by subjects.
pub(crate) fn tables() -> [&'static [Entry]; 6]
    ensures { flat_map (λ t. map texts t.now) result ≡ table }
{
    [
        &TEXT_FAULTS,
        &RUN_CODES,
        &PLAN_CODES,
        &REPORT_WORDS,
        &WAY_WORDS,
        &RUN_WORDS,
    ]
}
