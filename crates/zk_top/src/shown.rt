//! The text of a line that a command found broken, for people.
ghost use Rattle.std.specs.Prelude.{◌≡◌, ◌≤◌, length, IfSome};
ghost use Rattle.gold.specs.declared.shapes.Profile.TheVariants.{Small};
ghost use Rattle.machine_text.specs.Machine.{machine as machine_of};
ghost use Rattle.broken_line.specs.Texts.{IsText};
ghost use Rattle.zk_words.specs.Words.{texts};
ghost use Rattle.zk_top.specs.Shown.{number_of as number_in, IsTextIn, IsTextOfFile, IsShown};

use crate::checking::TEXT_LIMIT;
use crate::files::file_of;
use broken_line::{LineText, line_text};
use gold::Profile;
use host_io::Host;
use machine_text::machine;
use row_check::Broken;
use std::alloc::Global;
use zk_words::{Command, Status, read_words};

// The number of the line.
fn number_of(broken: &Broken) -> u32
    ensures { result ≡ number_in broken.now }
{
    match broken {
        Broken::At { line, .. } => *line,
        Broken::Counts { line, .. } => *line,
    }
}

// The text of a line of the machine's constraints.
fn machine_line(alloc: Global, number: u32) -> Option<LineText>
    ensures { IfSome result (IsText (machine_of Small) number) }
{
    let Ok(pil) = machine(alloc, Profile::Small) else {
        return None;
    };
    match line_text(alloc, &pil, number) {
        Ok(found) => found,
        Err(_) => None,
    }
}

// The text of a line of a constraint text.
fn line_in(alloc: Global, text: &[u8], number: u32) -> Option<LineText>
    requires { length text.now ≤ TEXT_LIMIT }
    ensures { IfSome result (IsTextIn text.now number) }
{
    let Ok(pil) = pil_text::read(alloc, text) else {
        return None;
    };
    match line_text(alloc, &pil, number) {
        Ok(found) => found,
        Err(_) => None,
    }
}

// The text of a line of the constraint text in a file.
fn line_in_file<H: Host>(alloc: Global, host: &mut H, name: &str, number: u32) -> Option<LineText>
    ensures told { H.tells host.old → H.tells host.new }
    ensures later { H.faults host.old ≤ H.faults host.new }
    ensures text { H.tells host.old → IfSome result (IsTextOfFile (H.world host.old).contents name.now number) }
{
    match file_of(alloc, host, name, TEXT_LIMIT) {
        Ok(text) => line_in(alloc, &text, number),
        Err(_) => None,
    }
}

/// The text of the line that a command of these words, which ended with this status, found broken: of `check` by the
/// machine's text, of `pil` by reading the constraint text once more. None where no line was found broken, and
/// where the text can't be had.
pub fn broken_text<H: Host>(
    alloc: Global,
    host: &mut H,
    words: &[String],
    status: &Status,
) -> Option<LineText>
    ensures told { H.tells host.old → H.tells host.new }
    ensures later { H.faults host.old ≤ H.faults host.new }
    ensures text { H.tells host.old → IfSome result (IsShown (H.world host.old).contents (texts words.now) status.now) }
{
    let Status::Broken(broken) = status else {
        return None;
    };
    match read_words(words) {
        Some(Command::Check { .. }) => machine_line(alloc, number_of(broken)),
        Some(Command::Pil { text, .. }) => line_in_file(alloc, host, text, number_of(broken)),
        _ => None,
    }
}
