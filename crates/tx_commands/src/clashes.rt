// Where two files of a command clash.
ghost use Rattle.std.specs.Prelude.{◌≡◌, true, false, ◌∷◌, Err, IfOk, IfErr, is_some, bytes_eq};
ghost use Rattle.tx_commands.specs.Files.{names, standard_input};
ghost use Rattle.tx_commands.specs.Clashes.{is_among, has_input_twice, has_clash, reads_input_twice, overwrites};
ghost use Rattle.tx_commands.specs.inner.Refused.{IsClash};
ghost use Rattle.tx_commands.specs.declared.misuse.Misuse.TheVariants.{InputTwice};

use crate::command::Command;
use crate::files::STANDARD_INPUT;
use crate::misuse::Misuse;
use std::alloc::Global;

/// Whether a file is one of these.
fn is_among(files: &[Option<&str>], file: &str) -> bool
    ensures { result ≡ is_among bytes_eq (names files.now) file.now }
{
    files.contains(&Some(file))
}

/// Whether standard input is among these files twice.
fn has_input_twice(files: &[Option<&str>]) -> bool
    ensures { result ≡ has_input_twice (names files.now) }
{
    for i in 0..files.len() {
        if files[i] == Some(STANDARD_INPUT) && is_among(&files[i + 1..], STANDARD_INPUT) {
            return true;
        }
    }
    false
}

/// A file to be made that is standard input, or one that is read, or another one to be made.
fn clashing<'n>(read: &[Option<&str>], made: &[Option<&'n str>]) -> Option<&'n str>
    ensures { is_some result
        ≡ has_clash bytes_eq (standard_input ∷ names read.now) (names made.now) }
{
    for i in 0..made.len() {
        if let Some(file) = made[i] {
            if file == STANDARD_INPUT || is_among(read, file) || is_among(&made[i + 1..], file) {
                return Some(file);
            }
        }
    }
    None
}

/// Refuses a command of which two files clash. Standard input that is read twice is told before a
/// file that is made over another one.
pub(crate) fn refuse_clash(alloc: Global, command: &Command) -> Result<(), Misuse>
    ensures refused { IfErr result (IsClash command.now) }
    ensures input_first { reads_input_twice command.now ≡ true → result ≡ Err InputTwice }
    ensures read_once { IfOk result (λ _. reads_input_twice command.now ≡ false) }
    ensures apart { IfOk result (λ _. overwrites command.now ≡ false) }
{
    let files = command.files();
    if has_input_twice(&files.reads) {
        return Err(Misuse::InputTwice);
    }
    match clashing(&files.reads, &files.makes()) {
        Some(file) => Err(Misuse::Overwrites(String::from_str(alloc, file)?)),
        None => Ok(()),
    }
}
