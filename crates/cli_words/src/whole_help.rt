//! Help for the program and for `check`, in lines of at most 80 columns.

pub const ABOUT: &str = "A replicated register of coordinate reference systems in WKT 2";

pub const OPTIONS_HELP: &str = "
Options:
  -h, --help     Print help
  -V, --version  Print version
";

pub const STATUS_HELP: &str = "
Exit status:
  0  done
  1  refused, or left out by --keep-going; the fault is on standard error. Or
     --exit-code found a difference
  2  the command line is wrong
  3  a file could not be opened, read or written, or is not a register; or a
     shelf has no register, no room for it, or could not be written
  4  out of memory

A file is named by its number among those that the command reads, from 1:
`file 2: Truncated at 0`. Lines with `out:` are about the output, lines with
`shelf:` about the shelf, which has no number. Where standard error is a
terminal, a sentence below the line says what is wrong; --no-explain (or
CRSREG_EXPLAIN=0) leaves it out, --explain (or CRSREG_EXPLAIN=1) prints it
everywhere.

Example:
  crsreg check < height.wkt";

pub const CHECK_HELP: &str = "\
If the text spells a coordinate reference system of the profile, its canonical
text is printed on one line. Otherwise its first fault is printed to standard
error, with its offset in bytes, from 0.

Example:
  crsreg check height.wkt";

pub const COMPLETIONS_HELP: &str = "\
Completes commands, options, names of files, and values from a list, such as
those of --status.

Examples:
  crsreg completions bash > ~/.local/share/bash-completion/completions/crsreg
  crsreg completions fish > ~/.config/fish/completions/crsreg.fish
  crsreg completions zsh > ~/.zfunc/_crsreg";
