//! Who made a lock file, and whether that command has ended for sure.

ghost use Rattle.std.specs.Prelude.{◌≡◌};
ghost use Rattle.byte_system.specs.Maker.{is_known, is_here, is_restarted, is_earlier, is_proof};

/// What stands for a word that cannot be read.
pub(crate) const UNKNOWN: &str = "-";

/// Where a command runs, and the mark of its new file, as its lock file says it. The words have no blanks.
#[derive(Clone, Copy)]
pub(crate) struct Maker<'a> {
    pub(crate) machine: &'a str,
    pub(crate) boot: &'a str,
    pub(crate) device: &'a str,
    pub(crate) mark: &'a str,
}

/// Whether the lock of a file that this command left tells that it has ended.
pub(crate) fn is_proof(left: &Maker<'_>, own: &Maker<'_>) -> bool
    ensures { result ≡ is_proof
        record { machine = left.now.machine.now; boot = left.now.boot.now; device = left.now.device.now }
        record { machine = own.now.machine.now; boot = own.now.boot.now; device = own.now.device.now } }
{
    is_here(left, own) || is_earlier(left, own)
}

fn is_here(left: &Maker<'_>, own: &Maker<'_>) -> bool
    ensures { result ≡ is_here
        record { machine = left.now.machine.now; boot = left.now.boot.now; device = left.now.device.now }
        record { machine = own.now.machine.now; boot = own.now.boot.now; device = own.now.device.now } }
{
    left.boot == own.boot
        && left.device == own.device
        && is_known(left.boot)
        && is_known(left.device)
}

fn is_earlier(left: &Maker<'_>, own: &Maker<'_>) -> bool
    ensures { result ≡ is_earlier
        record { machine = left.now.machine.now; boot = left.now.boot.now; device = left.now.device.now }
        record { machine = own.now.machine.now; boot = own.now.boot.now; device = own.now.device.now } }
{
    left.machine == own.machine && is_known(left.machine) && is_restarted(left.boot, own.boot)
}

fn is_restarted(left: &str, own: &str) -> bool
    ensures { result ≡ is_restarted left.now own.now }
{
    if left == own {
        return false;
    }
    is_known(left) && is_known(own)
}

fn is_known(word: &str) -> bool
    ensures { result ≡ is_known word.now }
{
    word != UNKNOWN
}

/// What a lock file says. A file with anything else is none of this program, or of a version before.
pub(crate) fn maker_of(line: &str) -> Option<Maker<'_>> {
    let mut words = line.strip_suffix('\n')?.split(' ');
    if words.next() != Some("crsreg") || words.next() != Some("lock") {
        return None;
    }
    let maker = Maker {
        machine: words.next()?,
        boot: words.next()?,
        device: words.next()?,
        mark: words.next()?,
    };
    if !is_mark(maker.mark) || words.next().is_none() || words.next().is_some() {
        return None;
    }
    Some(maker)
}

// Whether the word is a mark, and so no path.
fn is_mark(word: &str) -> bool {
    word.len() == 16 && word.bytes().all(is_hex)
}

fn is_hex(byte: u8) -> bool {
    byte.is_ascii_digit() || matches!(byte, b'a'..=b'f')
}
