//! Help for the commands that make, exchange and keep files, in lines of at most 80 columns.

pub const NEW_HELP: &str = "\
Every office starts from an empty register, which has seen no operation. What
was at OUT before is replaced.

Example:
  crsreg new office.crs";

pub const TAKE_HELP: &str = "\
Joins the registers and pieces of other offices to REG, as crsreg merge does,
and prints the lines of crsreg diff between REG before (-) and after (+). REG
keeps all that it had. If the files bring nothing new, REG is not written. The
files are opened one after another, so there can be thousands.

With --office FILE it joins all that the office made first: what a stopped
command did not bring to REG, or what an old copy of REG lacks; with no other
file also to a REG that is Behind. A file in which somebody else gave a number
in the office's name is refused as Forged UUID:NUMBER.

Refused, with REG unchanged: Clash ID if two files have different operations
under one id, so a number was given out twice; Basis ID if a piece was made for
an office that had seen ID, and the registers before it have not. With
--keep-going such a file, or one that cannot be read, is left out: standard
error has a line with its name and the reason. The others are joined, and the
exit status is that of the first line. A piece is tried again after the others,
since its basis may come with a later one.

With --undone the lines are those of codes that REG or a FILE said to be
superseded or withdrawn, that are not any more, and that nobody took back who
knew of it: a list for crsreg supersede -k REG --from. It is said once.

With --from, only the operations that these offices made are joined, and REG
has seen their numbers and no others of the files. Numbers without an operation
are not joined, so a gap may stay. A piece needs no basis then.

Examples:
  crsreg take office.crs north.crs south.piece
  crsreg take office.crs north.crs --undone >list
  crsreg new clean.crs
  crsreg take clean.crs office.crs --from $NORTH --from $SOUTH";

pub const OFFICE_HELP: &str = "\
An office file keeps what an office made: its UUID and the last number that it
gave; the greatest of its numbers that is known to have stood in a register; and
the register of all its operations. NEW gets a fresh UUID and no operation. It
is never written over a file or through a link (out: NotOpened).

With --office FILE a command works as this office. It joins all that the office
made to REG, and replaces FILE before it writes OUT. So an old REG, a stop, a
full disk or a failed rename loses nothing: the next command brings it, and the
same command, run again, has its effect once. What a command made comes back
even if its OUT is thrown away: try with --dry-run.

A REG that knows no number of the office is refused as Behind UUID:NUMBER, once
one stood in a register: crsreg take REG --office FILE brings what the office
made. If somebody else gave a number in the office's name, REG is refused as
Forged UUID:NUMBER: go on with a new office.

Have one office file for each register. Never copy an office file to another
machine, restore an older one, or put it under version control. Commands with
FILE wait for each other, up to 5 seconds, and then end with file 1: Busy.

Example:
  crsreg office north.office
  crsreg enter office.crs --office north.office --text height.wkt \\
      --out office.crs";

pub const MERGE_HELP: &str = "\
Makes one register of several. What was at OUT is replaced, and is lost unless
OUT is among the files; crsreg take joins the files of others to your register.

Reads all files in the order given before OUT is opened, so OUT can be one of
them. Writes the register of all their operations. The order of registers and
repeats do not matter. Pieces are merged after all registers, in the order
given.

Refused, with nothing written: Clash ID if two files have different operations
under one id, so a number was given out twice; Basis ID if a piece was made for
an office that had seen ID, and the registers before it have not.

Example:
  crsreg merge all.crs office.crs north.crs south.crs";

pub const SEEN_HELP: &str = "\
The summary lists the ids of the operations that the register has seen. Send it
to another office, which uses crsreg piece to make a file of what you lack.
What was at OUT before is replaced.

Example:
  crsreg seen south.crs south.seen";

pub const PIECE_HELP: &str = "\
The piece has what REG has and the office with the summary SEEN lacks. That
office merges it like a register. So can any other office that has seen at
least as much. What was at OUT before is replaced.

Example:
  crsreg piece north.crs south.seen south.piece";

pub const DOWNGRADE_HELP: &str = "\
For an office with crsreg 0.3 or older: writes the same register in file
version 1, without notes. The next change or merge by this program writes
version 2 again. What was at OUT before is replaced.

Refused, with nothing written: HasNote ID if an operation of the register has a
note. ID is the least such operation.

Example:
  crsreg downgrade office.crs for_the_old_office.crs";

pub const SHELF_HELP: &str = "\
A shelf is a file that holds a register. A crash or a power cut at any moment
leaves the register from before a command or the one after it. Commands that
change a register take --shelf. A shelf takes up to twice SIZE bytes. It begins
with an empty register.

Example:
  crsreg shelf office.shelf 1000000
  crsreg merge --shelf office.shelf office.crs";

pub const UNSHELF_HELP: &str = "\
Writes the register on the shelf to a file, for other offices. The shelf does
not change. What was at OUT before is replaced.

Example:
  crsreg unshelf office.shelf office.crs";
