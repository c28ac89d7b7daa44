// What is printed of the words, beside what they ask for.
ghost use Rattle.std.specs.Prelude.{◌≡◌};
ghost use Rattle.std.specs.IoError.{error_kind};
ghost use Rattle.tx_program.specs.Statuses.{status_of_arguments};

use std::io;
use std::io::Write;
use tx_commands::WordsFault;

/// Says that a plan and then a script are read, to whoever has to type them. An end that fails is
/// let pass.
pub(crate) fn announce_input<E: Write>(errors: &mut E) {
    let _ = errors.write_all(
        b"telexplan: reading a plan, then a script; telexplan --help lists the commands\n",
    );
}

/// Prints a request's help to the output, and why words are refused to the errors.
pub fn tell_words<O: Write, E: Write>(
    fault: &WordsFault,
    output: &mut O,
    errors: &mut E,
) -> io::Result<()> {
    match fault {
        WordsFault::Clap(e) => {
            if e.use_stderr() {
                write!(errors, "{e}")
            } else {
                write!(output, "{e}")?;
                output.flush()
            }
        }
        WordsFault::Together => {
            errors.write_all(b"telexplan: --cert, --limit and --spare go together\n")
        }
        WordsFault::NoMemory => errors.write_all(b"telexplan: no memory\n"),
    }
}

/// Writes why the arguments of the program could not be taken as words, and returns the exit
/// status: 4 when memory runs out, else 64.
pub fn refuse_arguments<E: Write>(why: &io::Error, errors: &mut E) -> u8
    ensures { result ≡ status_of_arguments (error_kind why.now) }
{
    if why.kind() == io::ErrorKind::OutOfMemory {
        let _ = errors.write_all(b"telexplan: no memory\n");
        4
    } else {
        let _ = errors.write_all(b"telexplan: a word is no UTF-8 text\n");
        64
    }
}
